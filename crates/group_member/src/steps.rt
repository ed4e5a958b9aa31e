//! One step of a member in a view.

ghost use Rattle.std.specs.Prelude.{◌≡◌, ◌^◌, ◌≤◌, List, map};
ghost use Rattle.member_laws.specs.Members.{IsEntered};
ghost use Rattle.packet_mean.specs.declared.here.Here as stands;
ghost use Rattle.run_mean.specs.Common.{first_plan, with_plans};
ghost use Rattle.run_mean.specs.Member.{Entered, Output};
ghost use Rattle.stack_mean.specs.Acceptance.{largest_weight};
ghost use Rattle.stack_shapes.specs.Entries.{entry_for};
ghost use Rattle.group_member.specs.Judged.{entry_meant, IsKnown, LiesWithin};
ghost use Rattle.group_member.specs.Serving.{IsSpare};
ghost use Rattle.group_member.specs.Stepping.{codes_in, in_full, plans_in, stack_of, IsGround, HasGone, HasPlayed};
ghost use Rattle.group_member.specs.Stepping.{HasTaken};
ghost use Rattle.group_member.specs.Trying.{AreGiven, MakesByCode};
ghost use Rattle.group_member.specs.Viewing.{IsIn};
ghost use Rattle.group_member.specs.Working.{states_in, taken_in, IsReady};

use crate::commons::{keep_entry, make_common};
use crate::enters::enter;
use crate::entry::Entry;
use crate::gathers::gather;
use crate::ground::{Ground, Took};
use crate::kit::Kit;
use crate::runs::run_layers;
use crate::views::change_view;
use crate::works::Works;
use layer_eval::Predicted;
use layer_mean::Case;
use stack_shapes::EntryOf;
use step_outputs::Outputs;

/// Runs the layers from what entered, and gathers what comes out.
fn play(
    works: &mut Works,
    ground: &Ground<'_>,
    entry: Entry<'_>,
    out: &mut Outputs,
    visits: &mut u64,
) -> Predicted
    requires ground { IsGround ground.now }
    requires ready { IsReady (stack_of ground.now) ground.now.most works.old }
    requires is_in { IsIn (stack_of ground.now) ground.now.most ground.now.here.now.view ground.now.id
        (states_in works.old) }
    requires entered { IsEntered (stack_of ground.now) (entry_meant ground.now.here.now entry) }
    requires lies { LiesWithin entry }
    requires out { out.old.places ≡ largest_weight (stack_of ground.now) }
    requires visits { visits.old ≤ 2 ^ 63 }
    ensures played { HasPlayed ground.now (states_in works.old) (taken_in works.old)
        (entry_meant ground.now.here.now entry.entry) works.new out.new
        visits.old visits.new result }
    ensures places { out.new.places ≡ out.old.places }
{
    ground.stack.law_accepted();
    enter(entry, ground, &mut works.tasks, &mut works.pool);
    let predicted = run_layers(works, ground.stack, visits);
    out.begin(*ground.here);
    gather(&mut works.outs, &mut works.pool, out);
    predicted
}

/// Sends short the outputs of a common step in a case, from the first plan of its entry on. Only an application's cast
/// or send has such a plan.
#[inline(always)]
fn send_short(ground: &Ground<'_>, what: EntryOf, case: Case, out: &mut Outputs)
    requires ground { IsGround ground.now }
    ensures { (entered : Entered) (outs : List Output) → what ≡ entry_for (plans_in ground.now) entered →
        out.old.outputs ≡ map in_full outs →
        out.new ≡ record out.old
        { outputs = with_plans (plans_in ground.now) (first_plan (stack_of ground.now) entered case) outs } }
{
    if let Some(first) = ground.starts.of(what, case) {
        out.send_short(first, ground.plans.slice().len() as u32);
    }
}

/// Makes a common step by its code, with the outputs sent short that are to be, and answers whether it did; where there
/// is no code, or none passes, nothing has changed.
#[inline(always)]
pub(crate) fn make_by_code<'x>(
    kit: &'x mut Kit,
    ground: &Ground<'_>,
    what: EntryOf,
    entry: &'x Entry<'_>,
    out: &mut Outputs,
) -> bool
    requires ground { IsGround ground.now }
    requires ready { IsReady (stack_of ground.now) ground.now.most kit.old.works }
    requires spare { IsSpare (codes_in ground.now) (plans_in ground.now) kit.old.scratch }
    requires is_in { IsIn (stack_of ground.now) ground.now.most ground.now.here.now.view ground.now.id
        (states_in kit.old.works) }
    requires entered { IsEntered (stack_of ground.now) (entry_meant ground.now.here.now entry.now) }
    requires lies { LiesWithin entry.now }
    requires what { (here : stands.Here) → what ≡ entry_for (plans_in ground.now) (entry_meant here entry.now) }
    requires fields { AreGiven ground.now entry.now kit.old.scratch.fields.items }
    requires out { out.old.places ≡ largest_weight (stack_of ground.now) }
    ensures made { MakesByCode ground.now kit.old.works (entry_meant ground.now.here.now entry.now) kit.new.works
        out.new result }
    ensures spare { IsSpare (codes_in ground.now) (plans_in ground.now) kit.new.scratch }
    ensures fields { kit.new.scratch.fields ≡ kit.old.scratch.fields }
    ensures places { out.new.places ≡ out.old.places }
{
    match make_common(&mut kit.works, &mut kit.scratch, ground, what, entry, out) {
        Some(case) => {
            send_short(ground, what, case, out);
            true
        }
        None => false,
    }
}

/// Makes the step of what entered, by its code if there is any that passes, else by the run of the layers, and answers
/// whether it was a common step.
fn make(
    kit: &mut Kit,
    ground: &Ground<'_>,
    entry: Entry<'_>,
    out: &mut Outputs,
    visits: &mut u64,
) -> bool
    requires ground { IsGround ground.now }
    requires ready { IsReady (stack_of ground.now) ground.now.most kit.old.works }
    requires spare { IsSpare (codes_in ground.now) (plans_in ground.now) kit.old.scratch }
    requires is_in { IsIn (stack_of ground.now) ground.now.most ground.now.here.now.view ground.now.id
        (states_in kit.old.works) }
    requires entered { IsEntered (stack_of ground.now) (entry_meant ground.now.here.now entry) }
    requires lies { LiesWithin entry }
    requires known { IsKnown (plans_in ground.now) kit.old.scratch.fields.items entry }
    requires out { out.old.places ≡ largest_weight (stack_of ground.now) }
    requires visits { visits.old ≤ 2 ^ 63 }
    ensures gone { HasGone ground.now kit.old.works (entry_meant ground.now.here.now entry.entry) kit.new.works out.new
        visits.old visits.new result }
    ensures spare { IsSpare (codes_in ground.now) (plans_in ground.now) kit.new.scratch }
    ensures places { out.new.places ≡ out.old.places }
{
    let what = keep_entry(ground.plans, &entry, &mut kit.scratch.fields);
    if make_by_code(kit, ground, what, &entry, out) {
        return true;
    }
    let predicted = play(&mut kit.works, ground, entry, out, visits);
    ground
        .entries
        .is_common(what, predicted.first, predicted.second)
}

/// Takes what entered: one step.
pub(crate) fn take(
    kit: &mut Kit,
    ground: &Ground<'_>,
    entry: Entry<'_>,
    out: &mut Outputs,
    visits: &mut u64,
) -> Took
    requires ground { IsGround ground.now }
    requires ready { IsReady (stack_of ground.now) ground.now.most kit.old.works }
    requires spare { IsSpare (codes_in ground.now) (plans_in ground.now) kit.old.scratch }
    requires is_in { IsIn (stack_of ground.now) ground.now.most ground.now.here.now.view ground.now.id
        (states_in kit.old.works) }
    requires entered { IsEntered (stack_of ground.now) (entry_meant ground.now.here.now entry) }
    requires lies { LiesWithin entry }
    requires known { IsKnown (plans_in ground.now) kit.old.scratch.fields.items entry }
    requires out { out.old.places ≡ largest_weight (stack_of ground.now) }
    requires visits { visits.old ≤ 2 ^ 63 }
    ensures taken { HasTaken ground.now kit.old.works (entry_meant ground.now.here.now entry.entry) kit.new.works
        out.new visits.old visits.new result }
    ensures spare { IsSpare (codes_in ground.now) (plans_in ground.now) kit.new.scratch }
    ensures places { out.new.places ≡ out.old.places }
{
    let common = make(kit, ground, entry, out, visits);
    let change = change_view(&mut kit.works, ground, out);
    Took { common, change }
}

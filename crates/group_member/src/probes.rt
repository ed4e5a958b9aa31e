//! What entered, tried as a common step.

ghost use Rattle.std.specs.Prelude.{◌≡◌, ℕ, List, Option, is_some};
ghost use Rattle.bypass_laws.specs.Making.{IsSound};
ghost use Rattle.run_mean.specs.Mode.{bypass};
ghost use Rattle.member_laws.specs.Members.{IsEntered};
ghost use Rattle.miss_laws.specs.Told.{AreChecksOf};
ghost use Rattle.lack_mean.specs.Lacks.{entry_named};
ghost use Rattle.packet_mean.specs.declared.here.Here as stands;
ghost use Rattle.run_mean.specs.Member as member;
ghost use Rattle.stack_mean.specs.Acceptance.{largest_weight};
ghost use Rattle.stack_mean.specs.Plan as mean;
ghost use Rattle.stack_shapes.specs.Entries.{entry_for};
ghost use Rattle.group_member.specs.Attempting.{Attempts};
ghost use Rattle.group_member.specs.Judged.{entry_meant, IsKnown, LiesWithin};
ghost use Rattle.group_member.specs.Placed.{Placed};
ghost use Rattle.group_member.specs.Probing.{IsNotTaken, Lacks, ProbesMember, StandsWhere};
ghost use Rattle.group_member.specs.Serving.{IsSpare};
ghost use Rattle.group_member.specs.Stepping.{codes_in, mode_of, plans_in, stack_of, step_over, IsGround};
ghost use Rattle.group_member.specs.Trying.{fields_given, IsUncommon};
ghost use Rattle.group_member.specs.Viewing.{IsIn};
ghost use Rattle.group_member.specs.Working.{states_in, IsReady};

use crate::commons::{given_of, keep_entry};
use crate::entry::Entry;
use crate::ground::Ground;
use crate::kit::Kit;
use crate::steps::make_by_code;
use crate::views::change_view;
use guard_checks::StackChecks;
use miss_laws::law_misses_are_told;
use stack_shapes::EntryOf;
use step_misses::{Miss, Probed};
use step_outputs::Outputs;
use view_core::Change;

/// The answer to trying what entered as a common step: the step was made, with where the member is after it, if it
/// installed something; or nothing has changed, with what the step lacks, if that is told.
#[derive(Clone, Copy)]
pub(crate) enum Attempt {
    Made(Option<Change>),
    Left(Option<Miss>),
}

/// Whether what the step lacks is told for what entered; a leave and a tick are never common.
fn is_told(entry: &Entry<'_>) -> bool
    ensures { (here : stands.Here) (plans : List mean.Plan) →
        result ≡ is_some (entry_named plans (entry_meant here entry.now)) }
{
    match entry {
        Entry::Cast(_) => true,
        Entry::Send(_, _) => true,
        Entry::Leave => false,
        Entry::Tick(_) => false,
        Entry::Packet(_, _, _) => true,
    }
}

/// What the step of what entered lacks, if that is told. The step isn't common.
fn lacked<'x>(
    kit: &'x Kit,
    ground: &Ground<'_>,
    what: EntryOf,
    entry: &'x Entry<'_>,
    checks: &mut StackChecks,
) -> Option<Miss>
    requires ground { IsGround ground.now }
    requires mode { mode_of ground.now ≡ bypass }
    requires sound { IsSound (stack_of ground.now) }
    requires checks { AreChecksOf (stack_of ground.now) checks.old }
    requires ready { IsReady (stack_of ground.now) ground.now.most kit.now.works }
    requires is_in { IsIn (stack_of ground.now) ground.now.most ground.now.here.now.view ground.now.id
        (states_in kit.now.works) }
    requires entered { IsEntered (stack_of ground.now) (entry_meant ground.now.here.now entry.now) }
    requires lies { LiesWithin entry.now }
    requires what { (here : stands.Here) → what ≡ entry_for (plans_in ground.now) (entry_meant here entry.now) }
    requires fields { kit.now.scratch.fields.items ≡
        fields_given (plans_in ground.now) (entry_meant ground.now.here.now entry.now) }
    requires uncommon { IsUncommon (mode_of ground.now) ground.now (states_in kit.now.works)
        (entry_meant ground.now.here.now entry.now) }
    ensures lacks { Lacks (stack_of ground.now) (plans_in ground.now)
        (step_over ground.now (states_in kit.now.works) (entry_meant ground.now.here.now entry.now)) result }
    ensures checks { checks.new ≡ checks.old }
{
    if !is_told(entry) {
        return None;
    }
    law_misses_are_told();
    let given = given_of(
        ground.plans,
        ground.here,
        ground.count,
        entry,
        kit.scratch.fields.as_slice(),
    );
    Some(checks.miss(what, &given, kit.works.layers.as_slice(), &kit.works.pool))
}

/// Makes the step of what entered, if it is a common one; else nothing changes, and the answer tells what it lacks.
pub(crate) fn try_common(
    kit: &mut Kit,
    ground: &Ground<'_>,
    entry: &Entry<'_>,
    checks: &mut StackChecks,
    out: &mut Outputs,
) -> Attempt
    requires ground { IsGround ground.now }
    requires mode { mode_of ground.now ≡ bypass }
    requires sound { IsSound (stack_of ground.now) }
    requires checks { AreChecksOf (stack_of ground.now) checks.old }
    requires ready { IsReady (stack_of ground.now) ground.now.most kit.old.works }
    requires spare { IsSpare (codes_in ground.now) (plans_in ground.now) kit.old.scratch }
    requires is_in { IsIn (stack_of ground.now) ground.now.most ground.now.here.now.view ground.now.id
        (states_in kit.old.works) }
    requires entered { IsEntered (stack_of ground.now) (entry_meant ground.now.here.now entry.now) }
    requires lies { LiesWithin entry.now }
    requires known { IsKnown (plans_in ground.now) kit.old.scratch.fields.items entry.now }
    requires out { out.old.places ≡ largest_weight (stack_of ground.now) }
    ensures attempts { Attempts ground.now kit.old.works (entry_meant ground.now.here.now entry.now) kit.new.works
        out.new result }
    ensures spare { IsSpare (codes_in ground.now) (plans_in ground.now) kit.new.scratch }
    ensures checks { checks.new ≡ checks.old }
    ensures places { out.new.places ≡ out.old.places }
{
    let what = keep_entry(ground.plans, entry, &mut kit.scratch.fields);
    if make_by_code(kit, ground, what, &*entry, out) {
        return Attempt::Made(change_view(&mut kit.works, ground, out));
    }
    out.clear();
    Attempt::Left(lacked(kit, ground, what, &*entry, checks))
}

/// What is answered where the step of an input isn't made.
pub(crate) fn probed_of(miss: Option<Miss>) -> Probed
    ensures probed { (old : Placed) (input : member.Input) (new : Placed) (outs : List (member.Output × Option ℕ)) →
        IsNotTaken old input new outs miss → ProbesMember old input new outs result }
    ensures here { (p : Placed) (here : stands.Here) → StandsWhere p here result }
{
    match miss {
        Some(miss) => Probed::Missed(miss),
        None => Probed::Other,
    }
}

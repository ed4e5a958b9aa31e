//! How many lines of each kind a script's report has, where the script is made while it is played.

ghost use Rattle.std.specs.Prelude.{◌≡◌, ◌^◌, ◌<◌, ◌≤◌, OnOk, length};
ghost use Rattle.stack_judge.specs.Answer.{stack_tree};
ghost use Rattle.group_feed.specs.Beginning.{IsAtFirst, IsReady};
ghost use Rattle.group_feed.specs.Standing.{Stands};
ghost use Rattle.msg_core.specs.View.{most_members};
ghost use Rattle.outside.specs.Lines.{Wrote};
ghost use Rattle.outside.specs.Tells.{tells_of};
ghost use Rattle.report_text.specs.Counts.{counts_of, no_counts};
ghost use Rattle.run_mean.specs.Report.{run_of};
ghost use Rattle.run_mean.specs.Tally.{tally};
ghost use Rattle.run_mean.specs.World as mean;
ghost use Rattle.script_mean.specs.Event.{member_of};
ghost use Rattle.script_text.specs.Course.{script_for};
ghost use Rattle.stack_shapes.specs.Trees.{plans_tree};
ghost use Rattle.stack_play.specs.Turns.{CountsEvent, Keeps, most_events, playing};

use crate::run::Run;
use group_feed::Feed;
use msg_core::Memory;
use outside::{Sink, SinkError};
use report_text::{Tally, write_tally};
use script_mean::ScriptEvent;
use script_text::{Generation, Workload};
use stack_judge::Stack;
use stack_shapes::Plans;
use std::alloc::Global;
use step_outputs::{Outputs, law_accepted_is_light};

/// A load: a workload, and the stack over which its script is played, with the plans of that.
#[derive(Clone, Copy)]
pub struct PlayedLoad<'a> {
    pub stack: &'a Stack,
    pub plans: &'a Plans,
    pub workload: Workload,
}

/// Plays the script of a workload of 1 to 32 members in a group that begins, with the number and the stamp of such a
/// script, in the group's mode, and writes how many lines of each kind its report has. Each event is made as it is
/// played.
pub fn write_counts<G: Feed, O: Sink>(
    alloc: Global,
    group: &mut G,
    outputs: Outputs,
    load: PlayedLoad<'_>,
    out: &mut O,
) -> Result<(), SinkError>
    requires first { IsAtFirst (G.group group.old).mode (stack_tree load.stack.now) (plans_tree load.plans.now) 1 1
        load.workload.members (G.group group.old) outputs.places }
    requires members { (1 ≤ load.workload.members) × (load.workload.members ≤ most_members) }
    requires few { load.workload.events ≤ most_events }
    ensures { Wrote (tally (stack_tree load.entry.stack.now) (plans_tree load.entry.plans.now) (G.group group.old).mode
        (script_for load.entry.workload)) (tells_of O.Sink out.old) (tells_of O.Sink out.new) result }
{
    let mut run = Run::new(alloc, outputs);
    let mut counts = Tally::new();
    count_events(alloc, group, &mut run, load, &mut counts)?;
    write_tally(&mut run.pen, &counts, out)
}

/// Makes and plays all events of a script, and counts the lines of each.
fn count_events<G: Feed>(
    alloc: Global,
    group: &mut G,
    run: &mut Run,
    load: PlayedLoad<'_>,
    counts: &mut Tally,
) -> Result<(), Memory>
    requires first { IsAtFirst (G.group group.old).mode (stack_tree load.stack.now) (plans_tree load.plans.now) 1 1
        load.workload.members (G.group group.old) run.old.outputs.places }
    requires visits { run.old.visits ≡ 0 }
    requires members { (1 ≤ load.workload.members) × (load.workload.members ≤ most_members) }
    requires few { load.workload.events ≤ most_events }
    requires nothing { counts.old ≡ no_counts }
    ensures { OnOk result (counts.new ≡ counts_of (G.group group.old).mode (stack_tree load.entry.stack.now)
        (plans_tree load.entry.plans.now)
        (run_of (stack_tree load.entry.stack.now) (plans_tree load.entry.plans.now) (script_for load.entry.workload))) }
{
    let mut script = Generation::new(alloc, load.workload)?;
    for _ in 0..load.workload.events {
        let event = script.next(alloc)?;
        count_event(group, run, load, &event, counts)?;
        script.take_back(event);
    }
    Ok(())
}

/// Plays an event, and counts its lines.
fn count_event<G: Feed>(
    group: &mut G,
    run: &mut Run,
    load: PlayedLoad<'_>,
    event: &ScriptEvent,
    counts: &mut Tally,
) -> Result<(), Memory>
    requires ready { IsReady (G.group group.old).mode (stack_tree load.stack.now) (plans_tree load.plans.now)
        (G.group group.old) run.old.outputs.places }
    requires member { member_of event.now < length (G.group group.old).members }
    requires visits { run.old.visits ≤ 2 ^ 63 }
    requires events { counts.old.events < 2 ^ 32 }
    ensures kept { Keeps (G.group group.old).mode (stack_tree load.entry.stack.now) (plans_tree load.entry.plans.now)
        (playing (G.group group.old) run.old) (playing (G.group group.new) run.new) }
    ensures counted { (w : mean.World) → Stands (G.group group.old) w →
        CountsEvent (G.group group.old).mode (stack_tree load.entry.stack.now) (plans_tree load.entry.plans.now) w
        event.now (playing (G.group group.new) run.new)
        counts.old counts.new result }
{
    let did = group.feed(event, &mut run.outputs, &mut run.visits)?;
    law_accepted_is_light(load.stack);
    run.outputs.law_places_for_all();
    counts.count_event(did, &run.outputs);
    Ok(())
}

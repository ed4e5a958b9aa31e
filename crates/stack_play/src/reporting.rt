//! Reports of runs.

ghost use Rattle.std.specs.Prelude.{◌≡◌, ◌^◌, ◌<◌, ◌≤◌, ◌∷◌, OnOk, length};
ghost use Rattle.std.specs.List.{flat_map, sum_by};
ghost use Rattle.stack_judge.specs.Answer.{stack_tree};
ghost use Rattle.group_feed.specs.Beginning.{IsAtFirst, IsReady};
ghost use Rattle.group_feed.specs.Standing.{Stands};
ghost use Rattle.outside.specs.Lines.{Wrote};
ghost use Rattle.outside.specs.Tells.{tells_of};
ghost use Rattle.group_mean.specs.Told.{lines_with_events, replay_lines};
ghost use Rattle.run_mean.specs.Report.{end_line, mode_if, run_of, visits_of};
ghost use Rattle.run_mean.specs.World as mean;
ghost use Rattle.script_mean.specs.Event.{member_of};
ghost use Rattle.script_mean.specs.Script.{IsRunnable};
ghost use Rattle.stack_shapes.specs.Trees.{plans_tree};
ghost use Rattle.stack_play.specs.Turns.{Keeps, TellsEvent, most_events, playing, visits_if};

use crate::run::Run;
use group_feed::Shows;
use outside::{Sink, SinkError};
use report_text::{Manner, Outcome, Pen, write_end, write_event, write_visits};
use script_mean::{Script, ScriptEvent};
use std::alloc::Global;
use step_outputs::{Outputs, law_accepted_is_light};

/// A report that is wanted: the script that it is of, how its lines are written, and whether it ends with the number of
/// visits.
#[derive(Clone, Copy)]
pub struct Report<'a, 'b> {
    pub script: &'a Script,
    pub manner: Manner<'b>,
    pub count: bool,
}

/// Plays a script in a group that begins, in the group's mode, and writes its report as it is wanted.
pub fn write_report<G: Shows, O: Sink>(
    alloc: Global,
    group: &mut G,
    outputs: Outputs,
    report: Report<'_, '_>,
    out: &mut O,
) -> Result<(), SinkError>
    requires first { IsAtFirst (G.group group.old).mode (stack_tree report.manner.stack.now)
        (plans_tree report.manner.plans.now) report.script.now.group report.script.now.stamp report.script.now.members
        (G.group group.old) outputs.places }
    requires runs { IsRunnable report.script.now }
    requires few { length report.script.now.events ≤ most_events }
    ensures { Wrote (replay_lines (stack_tree report.entry.manner.stack.now) (plans_tree report.entry.manner.plans.now)
        report.entry.script.now (G.group group.old).mode report.entry.manner.events
        report.entry.manner.wire report.entry.count)
        (tells_of O.Sink out.old) (tells_of O.Sink out.new) result }
{
    let mut run = Run::new(alloc, outputs);
    write_events(report.manner, group, &mut run, report.script, out)?;
    let events = report.script.events.slice().len() as u64;
    write_last(&mut run.pen, events, report.count, run.visits, out)
}

/// Writes the last lines of a report.
#[tactic(auto, using(outside::proofs::Turns::part_of, outside::proofs::Turns::wrote_both))]
fn write_last<O: Sink>(
    pen: &mut Pen,
    events: u64,
    count: bool,
    visits: u64,
    out: &mut O,
) -> Result<(), SinkError>
    ensures { Wrote (end_line events ∷ visits_if count visits)
        (tells_of O.Sink out.old) (tells_of O.Sink out.new) result }
{
    write_end(pen, events, out)?;
    if count {
        write_visits(pen, visits, out)
    } else {
        Ok(())
    }
}

/// Plays all events of a script, and writes the lines of each.
fn write_events<G: Shows, O: Sink>(
    manner: Manner<'_>,
    group: &mut G,
    run: &mut Run,
    script: &Script,
    out: &mut O,
) -> Result<(), SinkError>
    requires first { IsAtFirst (G.group group.old).mode (stack_tree manner.stack.now) (plans_tree manner.plans.now)
        script.now.group script.now.stamp script.now.members (G.group group.old) run.old.outputs.places }
    requires visits { run.old.visits ≡ 0 }
    requires runs { IsRunnable script.now }
    requires few { length script.now.events ≤ most_events }
    ensures lines { Wrote
        (flat_map (lines_with_events manner.entry.events (stack_tree manner.entry.stack.now)
        (plans_tree manner.entry.plans.now) (mode_if manner.entry.wire (G.group group.old).mode))
        (run_of (stack_tree manner.entry.stack.now) (plans_tree manner.entry.plans.now) script.now))
        (tells_of O.Sink out.old) (tells_of O.Sink out.new) result }
    ensures visits { OnOk result (run.new.visits
        ≡ sum_by (visits_of (G.group group.old).mode (stack_tree manner.entry.stack.now)
        (plans_tree manner.entry.plans.now))
        (run_of (stack_tree manner.entry.stack.now) (plans_tree manner.entry.plans.now) script.now)) }
{
    for event in script.events.slice() {
        play_event(manner, group, run, event, out)?;
    }
    Ok(())
}

/// Plays an event, and writes its lines.
fn play_event<G: Shows, O: Sink>(
    manner: Manner<'_>,
    group: &mut G,
    run: &mut Run,
    event: &ScriptEvent,
    out: &mut O,
) -> Result<(), SinkError>
    requires ready { IsReady (G.group group.old).mode (stack_tree manner.stack.now) (plans_tree manner.plans.now)
        (G.group group.old) run.old.outputs.places }
    requires member { member_of event.now < length (G.group group.old).members }
    requires visits { run.old.visits ≤ 2 ^ 63 }
    ensures kept { Keeps (G.group group.old).mode (stack_tree manner.entry.stack.now)
        (plans_tree manner.entry.plans.now)
        (playing (G.group group.old) run.old) (playing (G.group group.new) run.new) }
    ensures told { (w : mean.World) → Stands (G.group group.old) w →
        TellsEvent (G.group group.old).mode (stack_tree manner.entry.stack.now) (plans_tree manner.entry.plans.now)
        manner.entry.events manner.entry.wire
        w event.now (playing (G.group group.old) run.old) (playing (G.group group.new) run.new)
        (tells_of O.Sink out.old) (tells_of O.Sink out.new) result }
{
    let first = group.next_number();
    let did = group.feed(event, &mut run.outputs, &mut run.visits)?;
    law_accepted_is_light(manner.stack.stack());
    run.outputs.law_places_for_all();
    let outcome = Outcome {
        event,
        did,
        outputs: &run.outputs,
        first,
    };
    write_event(&mut run.pen, manner, group, &outcome, out)
}

//! Reports of scripts, written in a group and with a gear that are kept.

ghost use Rattle.std.specs.Prelude.{◌≡◌, ◌^◌, ◌<◌, ◌≤◌, OnOk, false, length};
ghost use Rattle.std.specs.List.{flat_map};
ghost use Rattle.stack_judge.specs.Answer.{stack_tree};
ghost use Rattle.group_feed.specs.Beginning.{IsAtFirst, IsReady};
ghost use Rattle.group_feed.specs.Standing.{Stands, Stays};
ghost use Rattle.outside.specs.Lines.{Wrote};
ghost use Rattle.outside.specs.Tells.{tells_of};
ghost use Rattle.group_mean.specs.Told.{lines_with_events, replay_lines};
ghost use Rattle.run_mean.specs.Report.{mode_if, run_of};
ghost use Rattle.run_mean.specs.World as mean;
ghost use Rattle.script_mean.specs.Event.{member_of};
ghost use Rattle.script_mean.specs.Script.{IsRunnable};
ghost use Rattle.stack_shapes.specs.Trees.{plans_tree};
ghost use Rattle.stack_play.specs.Turns.{Keeps, TellsEvent, most_events};
ghost use Rattle.family_group.specs.Telling.{IsNamed, playing};

use crate::gear::Gear;
use group_feed::Shows;
use outside::{Sink, SinkError};
use report_text::{Manner, Outcome, write_end, write_event};
use script_mean::{Script, ScriptEvent};
use step_outputs::law_accepted_is_light;

/// Plays a script in a group that begins, in the group's mode, and writes its report.
#[tactic(auto, using(outside::proofs::Turns::part_of, outside::proofs::Turns::wrote_both))]
pub fn write_script<G: Shows, O: Sink>(
    manner: Manner<'_>,
    group: &mut G,
    gear: &mut Gear,
    script: &Script,
    out: &mut O,
) -> Result<(), SinkError>
    requires first { IsAtFirst (G.group group.old).mode (stack_tree manner.stack.now) (plans_tree manner.plans.now)
        script.now.group script.now.stamp script.now.members (G.group group.old) gear.old.outputs.places }
    requires runs { IsRunnable script.now }
    requires few { length script.now.events ≤ most_events }
    ensures named { OnOk result (IsNamed script.now (G.group group.new)) }
    ensures wrote { Wrote (replay_lines (stack_tree manner.entry.stack.now) (plans_tree manner.entry.plans.now)
        script.now (G.group group.old).mode manner.entry.events manner.entry.wire false)
        (tells_of O.Sink out.old) (tells_of O.Sink out.new) result }
    ensures stays { Stays (G.group group.old) (G.group group.new) }
    ensures places { gear.new.outputs.places ≡ gear.old.outputs.places }
{
    gear.visits = 0;
    write_events(manner, group, gear, script, out)?;
    let events = script.events.slice().len() as u64;
    write_end(&mut gear.pen, events, out)
}

/// Plays all events of a script, and writes the lines of each.
fn write_events<G: Shows, O: Sink>(
    manner: Manner<'_>,
    group: &mut G,
    gear: &mut Gear,
    script: &Script,
    out: &mut O,
) -> Result<(), SinkError>
    requires first { IsAtFirst (G.group group.old).mode (stack_tree manner.stack.now) (plans_tree manner.plans.now)
        script.now.group script.now.stamp script.now.members (G.group group.old) gear.old.outputs.places }
    requires visits { gear.old.visits ≡ 0 }
    requires runs { IsRunnable script.now }
    requires few { length script.now.events ≤ most_events }
    ensures named { OnOk result (IsNamed script.now (G.group group.new)) }
    ensures lines { Wrote
        (flat_map (lines_with_events manner.entry.events (stack_tree manner.entry.stack.now)
        (plans_tree manner.entry.plans.now) (mode_if manner.entry.wire (G.group group.old).mode))
        (run_of (stack_tree manner.entry.stack.now) (plans_tree manner.entry.plans.now) script.now))
        (tells_of O.Sink out.old) (tells_of O.Sink out.new) result }
    ensures stays { Stays (G.group group.old) (G.group group.new) }
    ensures places { gear.new.outputs.places ≡ gear.old.outputs.places }
{
    for event in script.events.slice() {
        play_event(manner, group, gear, event, out)?;
    }
    Ok(())
}

/// Plays an event, and writes its lines.
fn play_event<G: Shows, O: Sink>(
    manner: Manner<'_>,
    group: &mut G,
    gear: &mut Gear,
    event: &ScriptEvent,
    out: &mut O,
) -> Result<(), SinkError>
    requires ready { IsReady (G.group group.old).mode (stack_tree manner.stack.now) (plans_tree manner.plans.now)
        (G.group group.old) gear.old.outputs.places }
    requires member { member_of event.now < length (G.group group.old).members }
    requires visits { gear.old.visits ≤ 2 ^ 63 }
    ensures kept { Keeps (G.group group.old).mode (stack_tree manner.entry.stack.now)
        (plans_tree manner.entry.plans.now)
        (playing (G.group group.old) gear.old) (playing (G.group group.new) gear.new) }
    ensures told { (w : mean.World) → Stands (G.group group.old) w →
        TellsEvent (G.group group.old).mode (stack_tree manner.entry.stack.now) (plans_tree manner.entry.plans.now)
        manner.entry.events manner.entry.wire
        w event.now (playing (G.group group.old) gear.old) (playing (G.group group.new) gear.new)
        (tells_of O.Sink out.old) (tells_of O.Sink out.new) result }
    ensures stays { Stays (G.group group.old) (G.group group.new) }
    ensures places { gear.new.outputs.places ≡ gear.old.outputs.places }
{
    let first = group.next_number();
    let did = group.feed(event, &mut gear.outputs, &mut gear.visits)?;
    law_accepted_is_light(manner.stack.stack());
    gear.outputs.law_places_for_all();
    let outcome = Outcome {
        event,
        did,
        outputs: &gear.outputs,
        first,
    };
    write_event(&mut gear.pen, manner, group, &outcome, out)
}

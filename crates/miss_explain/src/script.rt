//! The lines of a script.

ghost use Rattle.std.specs.Prelude.{◌≡◌, ◌∷◌, ◌<◌, ◌≤◌, [], length};
ghost use Rattle.stack_judge.specs.Answer.{stack_tree};
ghost use Rattle.group_feed.specs.Standing.{Stands, Stays};
ghost use Rattle.layer_ast.specs.View.{file_tree};
ghost use Rattle.miss_mean.specs.Text.{explained_lines};
ghost use Rattle.outside.specs.Lines.{Wrote};
ghost use Rattle.outside.specs.Tells.{tells_of};
ghost use Rattle.run_mean.specs.Report as report;
ghost use Rattle.run_mean.specs.World as mean;
ghost use Rattle.script_mean.specs.Event.{member_of};
ghost use Rattle.script_mean.specs.Lines.{most_lines};
ghost use Rattle.script_mean.specs.Script.{IsRunnable};
ghost use Rattle.stack_mean.specs.Acceptance.{largest_weight};
ghost use Rattle.stack_shapes.specs.Shapes.{short_shapes};
ghost use Rattle.stack_shapes.specs.Trees.{plans_tree};
ghost use Rattle.miss_explain.specs.Explaining.{Explains, FedOn, Follows, IsAtFirst, IsReady, Keeps, MayBeTold};
ghost use Rattle.miss_explain.specs.Explaining.{SomeWorld, probed_lines, script_misses};

use crate::miss::{Step, write_miss};
use crate::texts::Texts;
use group_feed::Probe;
use msg_core::Memory;
use outside::{Sink, SinkError, put_line};
use report_lines::{Line, end_line};
use script_mean::{Script, ScriptEvent, member_of};
use std::alloc::Global;
use step_misses::Probed;
use step_outputs::Outputs;

/// The outputs of the last step, and what lines are built in.
#[derive(Drop)]
struct Run {
    outputs: Outputs,
    line: Line,
}

/// An event of a script, with its number.
#[derive(Clone, Copy)]
struct NumberedEvent<'a> {
    number: u64,
    event: &'a ScriptEvent,
}

/// Feeds an event. How many visits it makes isn't told.
fn feed<P: Probe>(probe: &mut P, event: &ScriptEvent, outputs: &mut Outputs) -> Result<(), Memory>
    requires member { member_of event.now < length (P.group probe.old).members }
    requires places { outputs.old.places ≡ largest_weight (P.group probe.old).stack }
    ensures fed { (w : mean.World) → Stands (P.group probe.old) w →
        FedOn (P.group probe.old) event.now w (P.group probe.new) result }
    ensures stays { Stays (P.group probe.old) (P.group probe.new) }
    ensures places { outputs.new.places ≡ outputs.old.places }
{
    let mut visits = 0;
    probe.feed(event, outputs, &mut visits)?;
    Ok(())
}

/// Feeds an event that was probed, unless it was made as a common step.
fn feed_uncommon<P: Probe>(
    probe: &mut P,
    probed: Probed,
    event: &ScriptEvent,
    outputs: &mut Outputs,
) -> Result<(), Memory>
    requires member { member_of event.now < length (P.group probe.old).members }
    requires places { outputs.old.places ≡ largest_weight (P.group probe.old).stack }
    ensures follows { (w : mean.World) → Stands (P.group probe.old) w →
        Follows probed (P.group probe.old) event.now w (P.group probe.new) result }
    ensures stays { Stays (P.group probe.old) (P.group probe.new) }
    ensures places { outputs.new.places ≡ outputs.old.places }
{
    match probed {
        Probed::Common => Ok(()),
        Probed::Other => feed(probe, event, outputs),
        Probed::Missed(_) => feed(probe, event, outputs),
    }
}

/// Puts the line of a member's event that was probed, if it lacked something.
fn write_probed<O: Sink>(
    line: &mut Line,
    texts: Texts<'_>,
    step: Step,
    probed: Probed,
    out: &mut O,
) -> Result<(), SinkError>
    requires entries { texts.entries.now ≡ short_shapes (stack_tree texts.stack.now) (plans_tree texts.plans.now) }
    requires told { MayBeTold (stack_tree texts.stack.now) (plans_tree texts.plans.now) probed }
    ensures { Wrote (probed_lines (file_tree texts.entry.file.now) (stack_tree texts.entry.stack.now)
        (plans_tree texts.entry.plans.now) step.event step.member probed)
        (tells_of O.Sink out.old) (tells_of O.Sink out.new) result }
{
    match probed {
        Probed::Common => Ok(()),
        Probed::Other => Ok(()),
        Probed::Missed(miss) => write_miss(line, texts, step, &miss, out),
    }
}

/// Explains an event.
fn explain_event<P: Probe, O: Sink>(
    run: &mut Run,
    probe: &mut P,
    texts: Texts<'_>,
    numbered: NumberedEvent<'_>,
    out: &mut O,
) -> Result<(), SinkError>
    requires entries { texts.entries.now ≡ short_shapes (stack_tree texts.stack.now) (plans_tree texts.plans.now) }
    requires ready { IsReady (stack_tree texts.stack.now) (plans_tree texts.plans.now) (P.group probe.old)
        run.old.outputs.places }
    requires world { SomeWorld (P.group probe.old) }
    requires member { member_of numbered.event.now < length (P.group probe.old).members }
    ensures kept { Keeps (stack_tree texts.entry.stack.now) (plans_tree texts.entry.plans.now) (P.group probe.old)
        (P.group probe.new) run.new.outputs.places }
    ensures told { (w : mean.World) → Stands (P.group probe.old) w →
        Explains (file_tree texts.entry.file.now) (stack_tree texts.entry.stack.now) (plans_tree texts.entry.plans.now)
        numbered.entry.number w numbered.entry.event.now (P.group probe.new)
        (tells_of O.Sink out.old) (tells_of O.Sink out.new) result }
{
    let NumberedEvent { number, event } = numbered;
    let probed = probe.probe(event, &mut run.outputs)?;
    let step = Step {
        event: number,
        member: member_of(event),
    };
    write_probed(&mut run.line, texts, step, probed, out)?;
    feed_uncommon(probe, probed, event, &mut run.outputs)?;
    Ok(())
}

/// Explains all events of a script.
fn explain_events<P: Probe, O: Sink>(
    run: &mut Run,
    probe: &mut P,
    texts: Texts<'_>,
    script: &Script,
    out: &mut O,
) -> Result<(), SinkError>
    requires entries { texts.entries.now ≡ short_shapes (stack_tree texts.stack.now) (plans_tree texts.plans.now) }
    requires first { IsAtFirst (stack_tree texts.stack.now) (plans_tree texts.plans.now) script.now (P.group probe.old)
        run.old.outputs.places }
    requires runs { IsRunnable script.now }
    requires few { length script.now.events ≤ most_lines }
    ensures { Wrote (script_misses (file_tree texts.entry.file.now) (stack_tree texts.entry.stack.now)
        (plans_tree texts.entry.plans.now) script.now)
        (tells_of O.Sink out.old) (tells_of O.Sink out.new) result }
{
    let events = script.events.slice();
    for index in 0..events.len() {
        let numbered = NumberedEvent {
            number: index as u64 + 1,
            event: &events[index],
        };
        explain_event(run, probe, texts, numbered, out)?;
    }
    Ok(())
}

/// Puts the last line.
fn write_end<O: Sink>(line: &mut Line, events: u64, out: &mut O) -> Result<(), SinkError>
    ensures { Wrote (report.end_line events ∷ [])
        (tells_of O.Sink out.old) (tells_of O.Sink out.new) result }
{
    line.clear();
    end_line(line, events)?;
    put_line(line.slice(), out)
}

/// An explanation that is wanted: the script of whose steps it tells, and what its lines are made from.
#[derive(Clone, Copy)]
pub struct Explanation<'a> {
    pub script: &'a Script,
    pub texts: Texts<'a>,
}

/// Explains a script with a group that begins, runs by bypasses and tells why an event is no common step: puts the line
/// of each step that isn't common, and then the last line.
pub fn explain<P: Probe, O: Sink>(
    alloc: Global,
    probe: &mut P,
    outputs: Outputs,
    explanation: Explanation<'_>,
    out: &mut O,
) -> Result<(), SinkError>
    requires entries { explanation.texts.entries.now ≡ short_shapes (stack_tree explanation.texts.stack.now)
        (plans_tree explanation.texts.plans.now) }
    requires first { IsAtFirst (stack_tree explanation.texts.stack.now) (plans_tree explanation.texts.plans.now)
        explanation.script.now (P.group probe.old) outputs.places }
    requires runs { IsRunnable explanation.script.now }
    requires few { length explanation.script.now.events ≤ most_lines }
    ensures { Wrote (explained_lines (file_tree explanation.entry.texts.file.now)
        (stack_tree explanation.entry.texts.stack.now) (plans_tree explanation.entry.texts.plans.now)
        explanation.entry.script.now)
        (tells_of O.Sink out.old) (tells_of O.Sink out.new) result }
{
    let Explanation { script, texts } = explanation;
    let mut run = Run {
        outputs,
        line: Line::new(alloc),
    };
    explain_events(&mut run, probe, texts, script, out)?;
    write_end(&mut run.line, script.events.slice().len() as u64, out)
}

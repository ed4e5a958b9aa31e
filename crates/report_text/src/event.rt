//! The lines of what one event of a script yielded.

ghost use Rattle.std.specs.Prelude.{◌≡◌, ◌+◌, ◌^◌, ◌<◌, ◌∷◌, ◌++◌, [], OnOk, length};
ghost use Rattle.group_mean.specs.Told.{event_line, event_lines};
ghost use Rattle.stack_judge.specs.Answer.{stack_tree};
ghost use Rattle.group_feed.specs.Showing.{shown_in};
ghost use Rattle.stack_shapes.specs.Trees.{plans_tree};
ghost use Rattle.run_mean.specs.Lines as report;
ghost use Rattle.run_mean.specs.Report.{end_line, packet_given, visits_line};
ghost use Rattle.script_mean.specs.Event.{member_of};
ghost use Rattle.outside.specs.Lines.{Wrote};
ghost use Rattle.outside.specs.Tells.{tells_of};
ghost use Rattle.view_core.specs.Refusals.{refusal_meant};
ghost use Rattle.report_text.specs.Told.{annex_of, change_line, change_lines, stepped_lines, taken_lines, told_lines};

use crate::manner::{Issue, Manner, Outcome};
use crate::output::write_outputs;
use crate::pen::Pen;
use crate::state::write_member;
use group_feed::Shows;
use msg_core::Memory;
use outside::{Sink, SinkError, put_line};
use report_lines::{Line, absent_line, journal_line, out_line, refused_line, view_line};
use script_mean::{ScriptEvent, member_of};
use view_core::{Change, Did, Refusal, Stepped};

/// The packet that an event gives, 0 for none.
fn packet_given(event: &ScriptEvent) -> u32
    ensures { result ≡ packet_given event.now }
{
    match event {
        ScriptEvent::Give(number, _) => *number,
        _ => 0,
    }
}

/// Builds the line of where a member is after a step that installed something.
fn build_change(line: &mut Line, id: u8, change: Change) -> Result<(), Memory>
    ensures { OnOk result (line.new ≡ line.old ++ change_line id change) }
{
    match change {
        Change::Into(view) => view_line(line, id, view),
        Change::Out => out_line(line, id),
    }
}

/// Puts the line of where a member is after a step, if it installed something.
pub fn write_change<O: Sink>(
    pen: &mut Pen,
    id: u8,
    change: Option<Change>,
    out: &mut O,
) -> Result<(), SinkError>
    ensures { Wrote (change_lines id change)
        (tells_of O.Sink out.old) (tells_of O.Sink out.new) result }
{
    let Some(change) = change else { return Ok(()) };
    pen.line.clear();
    build_change(&mut pen.line, id, change)?;
    put_line(pen.line.slice(), out)
}

/// Puts the lines of a step that was taken.
fn write_taken<O: Sink>(
    pen: &mut Pen,
    manner: Manner<'_>,
    issue: Issue<'_>,
    change: Option<Change>,
    out: &mut O,
) -> Result<(), SinkError>
    requires { issue.first + length issue.outputs.now.outputs < 2 ^ 64 }
    ensures { Wrote (taken_lines (stack_tree manner.entry.stack.now)
        (annex_of manner.entry.wire (plans_tree manner.entry.plans.now))
        issue.entry.id issue.entry.first issue.entry.outputs.now.outputs change)
        (tells_of O.Sink out.old) (tells_of O.Sink out.new) result }
{
    write_outputs(pen, manner, issue, out)?;
    write_change(pen, issue.id, change, out)
}

/// Puts the line of a refusal.
pub fn write_refusal<O: Sink>(
    pen: &mut Pen,
    id: u8,
    refusal: Refusal,
    out: &mut O,
) -> Result<(), SinkError>
    ensures { Wrote (report.refused_line id (refusal_meant refusal) ∷ [])
        (tells_of O.Sink out.old) (tells_of O.Sink out.new) result }
{
    pen.line.clear();
    refused_line(&mut pen.line, id, refusal)?;
    put_line(pen.line.slice(), out)
}

/// Puts the lines of a step.
fn write_stepped<O: Sink>(
    pen: &mut Pen,
    manner: Manner<'_>,
    issue: Issue<'_>,
    stepped: Stepped,
    out: &mut O,
) -> Result<(), SinkError>
    requires { issue.first + length issue.outputs.now.outputs < 2 ^ 64 }
    ensures { Wrote (stepped_lines (stack_tree manner.entry.stack.now)
        (annex_of manner.entry.wire (plans_tree manner.entry.plans.now))
        issue.entry.id issue.entry.first issue.entry.outputs.now.outputs stepped)
        (tells_of O.Sink out.old) (tells_of O.Sink out.new) result }
{
    match stepped {
        Stepped::Taken { common: _, change } => { write_taken(pen, manner, issue, change, out) }
        Stepped::Refused(refusal) => write_refusal(pen, issue.id, refusal, out),
    }
}

/// Puts the line of a packet that isn't there.
fn write_absent<O: Sink>(pen: &mut Pen, id: u8, number: u32, out: &mut O) -> Result<(), SinkError>
    ensures { Wrote (report.absent_line id number ∷ [])
        (tells_of O.Sink out.old) (tells_of O.Sink out.new) result }
{
    pen.line.clear();
    absent_line(&mut pen.line, id, number)?;
    put_line(pen.line.slice(), out)
}

/// Puts the line of an event, as a journal has it.
pub fn write_journal<O: Sink>(
    pen: &mut Pen,
    event: &ScriptEvent,
    out: &mut O,
) -> Result<(), SinkError>
    ensures { Wrote (event_line event.now ∷ [])
        (tells_of O.Sink out.old) (tells_of O.Sink out.new) result }
{
    pen.line.clear();
    journal_line(&mut pen.line, event)?;
    put_line(pen.line.slice(), out)
}

/// Puts the line of an event, where events are told.
fn write_told<O: Sink>(
    pen: &mut Pen,
    events: bool,
    event: &ScriptEvent,
    out: &mut O,
) -> Result<(), SinkError>
    ensures { Wrote (event_lines events event.now)
        (tells_of O.Sink out.old) (tells_of O.Sink out.new) result }
{
    if events {
        write_journal(pen, event, out)
    } else {
        Ok(())
    }
}

/// Puts the lines of what an event yielded, one by one.
fn write_yield<S: Shows, O: Sink>(
    pen: &mut Pen,
    manner: Manner<'_>,
    group: &S,
    outcome: &Outcome<'_>,
    out: &mut O,
) -> Result<(), SinkError>
    requires { outcome.now.first + length outcome.now.outputs.now.outputs < 2 ^ 64 }
    ensures { Wrote (told_lines (stack_tree manner.entry.stack.now) (plans_tree manner.entry.plans.now)
        manner.entry.wire outcome.now.event.now
        outcome.now.did outcome.now.outputs.now.outputs (shown_in (S.group group.now) (member_of outcome.now.event.now))
        outcome.now.first)
        (tells_of O.Sink out.old) (tells_of O.Sink out.new) result }
{
    let id = member_of(outcome.event);
    match outcome.did {
        Did::Stepped(stepped) => {
            let issue = Issue {
                id,
                first: outcome.first,
                outputs: outcome.outputs,
            };
            write_stepped(pen, manner, issue, stepped, out)
        }
        Did::Absent => write_absent(pen, id, packet_given(outcome.event), out),
        Did::Shown => write_member(pen, manner.stack, id, group, out),
    }
}

/// Puts the line of an event, where events are told, and then the lines of what it yielded, one by one: those of a
/// step's outputs, and of where the member is then; a refusal; a packet that isn't there; or the member that is shown,
/// as the group has it. Where it is wanted, the bytes of each packet stand after its line, as it is sent: short under
/// the plan beside it, or in full.
pub fn write_event<S: Shows, O: Sink>(
    pen: &mut Pen,
    manner: Manner<'_>,
    group: &S,
    outcome: &Outcome<'_>,
    out: &mut O,
) -> Result<(), SinkError>
    requires { outcome.now.first + length outcome.now.outputs.now.outputs < 2 ^ 64 }
    ensures { Wrote (event_lines manner.entry.events outcome.now.event.now
        ++ told_lines (stack_tree manner.entry.stack.now) (plans_tree manner.entry.plans.now)
        manner.entry.wire outcome.now.event.now
        outcome.now.did outcome.now.outputs.now.outputs (shown_in (S.group group.now) (member_of outcome.now.event.now))
        outcome.now.first)
        (tells_of O.Sink out.old) (tells_of O.Sink out.new) result }
{
    write_told(pen, manner.events, outcome.event, out)?;
    write_yield(pen, manner, group, outcome, out)
}

/// Puts the last line of a report.
pub fn write_end<O: Sink>(pen: &mut Pen, events: u64, out: &mut O) -> Result<(), SinkError>
    ensures { Wrote (end_line events ∷ [])
        (tells_of O.Sink out.old) (tells_of O.Sink out.new) result }
{
    pen.line.clear();
    report_lines::end_line(&mut pen.line, events)?;
    put_line(pen.line.slice(), out)
}

/// Puts the line of how many visits were counted.
pub fn write_visits<O: Sink>(pen: &mut Pen, visits: u64, out: &mut O) -> Result<(), SinkError>
    ensures { Wrote (visits_line visits ∷ [])
        (tells_of O.Sink out.old) (tells_of O.Sink out.new) result }
{
    pen.line.clear();
    report_lines::visits_line(&mut pen.line, visits)?;
    put_line(pen.line.slice(), out)
}

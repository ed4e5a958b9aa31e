//! The lines of what is made of entries.

ghost use Rattle.std.specs.Prelude.{◌≡◌, ◌++◌, ◌∷◌, [], OnOk, codes, option_map};
ghost use Rattle.std.specs.Fmt.{decimal};
ghost use Rattle.bypass_mean.specs.Lines.{ended_line, guarded_lines, made_lines, reason_text};
ghost use Rattle.stack_judge.specs.Answer.{stack_tree};
ghost use Rattle.outside.specs.Lines.{Wrote};
ghost use Rattle.outside.specs.Tells.{tells_of};
ghost use Rattle.shape_core.specs.Cases.{reason_tree};
ghost use Rattle.synth_print.specs.Entries.{case_lines, heading, name_text, second_lines};
ghost use Rattle.synth_print.specs.Lines.{ended_lines};
ghost use Rattle.trace_core.specs.Bypasses.{first_tree, made_tree, second_tree};
ghost use Rattle.trace_core.specs.Trees.{guarded_tree};

use crate::handler::write_handler;
use crate::name::{Case, Name};
use crate::pen::Pen;
use msg_core::Memory;
use outside::{Sink, SinkError, put_line};
use report_lines::Line;
use shape_core::Absent;
use stack_judge::Stack;
use trace_core::{Cases, Guarded, Made};

/// What an entry is called.
pub(crate) fn push_name(line: &mut Line, name: Name) -> Result<(), Memory>
    ensures { OnOk result (line.new ≡ line.old ++ name_text name) }
{
    match name {
        Name::Cast => line.text(b"cast"),
        Name::Send => line.text(b"send"),
        Name::Plan(number) => {
            line.text(b"plan ")?;
            line.number(number)
        }
    }
}

/// What the lines of a case of an entry begin with.
fn push_heading(line: &mut Line, name: Name, second: bool) -> Result<(), Memory>
    ensures { OnOk result (line.new ≡ line.old ++ heading name second) }
{
    line.text(b"entry ")?;
    push_name(line, name)?;
    if second {
        line.text(b" second")
    } else {
        Ok(())
    }
}

/// A word and a place.
fn push_placed(line: &mut Line, word: &[u8], place: u8) -> Result<(), Memory>
    ensures { OnOk result (line.new ≡ line.old ++ word.now ++ decimal place) }
{
    line.text(word)?;
    line.number(u64::from(place))
}

/// Why there is no trace.
fn push_reason(line: &mut Line, reason: Absent) -> Result<(), Memory>
    ensures { OnOk result (line.new ≡ line.old ++ reason_text (reason_tree reason)) }
{
    match reason {
        Absent::Loop(place) => push_placed(line, b"loop ", place),
        Absent::Rare(place) => push_placed(line, b"rare ", place),
        Absent::Stored(place) => push_placed(line, b"stored ", place),
        Absent::Long => line.text(b"long"),
        Absent::Same => line.text(b"same"),
    }
}

/// Builds the line of a case without a trace.
fn build_absent(line: &mut Line, name: Name, second: bool, reason: Absent) -> Result<(), Memory>
    ensures { OnOk result
        (line.new ≡ line.old ++
        ended_line (heading name second ++ codes " absent " ++ reason_text (reason_tree reason))) }
{
    push_heading(line, name, second)?;
    line.text(b" absent ")?;
    push_reason(line, reason)?;
    line.text(b"\n")
}

/// Puts the line of a case without a trace.
fn write_absent<O: Sink>(
    line: &mut Line,
    name: Name,
    second: bool,
    reason: Absent,
    out: &mut O,
) -> Result<(), SinkError>
    ensures { Wrote (ended_line (heading name second ++ codes " absent " ++ reason_text (reason_tree reason)) ∷ [])
        (tells_of O.Sink out.old) (tells_of O.Sink out.new) result }
{
    line.clear();
    build_absent(line, name, second, reason)?;
    put_line(line.slice(), out)
}

/// Builds the first line of a case with a trace.
fn build_fused(line: &mut Line, name: Name, second: bool) -> Result<(), Memory>
    ensures { OnOk result (line.new ≡ line.old ++ ended_line (heading name second ++ codes " fused")) }
{
    push_heading(line, name, second)?;
    line.text(b" fused\n")
}

/// Puts the first line of a case with a trace.
fn write_heading<O: Sink>(
    line: &mut Line,
    name: Name,
    second: bool,
    out: &mut O,
) -> Result<(), SinkError>
    ensures { Wrote (ended_line (heading name second ++ codes " fused") ∷ [])
        (tells_of O.Sink out.old) (tells_of O.Sink out.new) result }
{
    line.clear();
    build_fused(line, name, second)?;
    put_line(line.slice(), out)
}

/// Puts the lines of a case with a trace.
fn write_fused<O: Sink>(
    pen: &mut Pen,
    stack: &Stack,
    case: Case,
    guarded: &Guarded,
    out: &mut O,
) -> Result<(), SinkError>
    ensures { Wrote (ended_line (heading case.name case.second ++ codes " fused") ∷
        ended_lines (guarded_lines (stack_tree stack.now) (guarded_tree guarded.now)))
        (tells_of O.Sink out.old) (tells_of O.Sink out.new) result }
{
    write_heading(&mut pen.line, case.name, case.second, out)?;
    write_handler(pen, stack, guarded, out)
}

/// Puts the lines of what is made of an entry in a case.
fn write_made<O: Sink>(
    pen: &mut Pen,
    stack: &Stack,
    case: Case,
    made: &Made,
    out: &mut O,
) -> Result<(), SinkError>
    ensures { Wrote
        (ended_lines (made_lines (stack_tree stack.now) (heading case.name case.second) (made_tree made.now)))
        (tells_of O.Sink out.old) (tells_of O.Sink out.new) result }
{
    match made {
        Made::Fused(bypass) => write_fused(pen, stack, case, &bypass.guarded, out),
        Made::Absent(reason) => {
            write_absent(&mut pen.line, case.name, case.second, *reason, out)
        }
    }
}

/// Puts the lines of what is made of an entry in its second case, if there is one.
fn write_second<O: Sink>(
    pen: &mut Pen,
    stack: &Stack,
    name: Name,
    made: &Option<Made>,
    out: &mut O,
) -> Result<(), SinkError>
    ensures { Wrote (second_lines (stack_tree stack.now) name (option_map made_tree made.now))
        (tells_of O.Sink out.old) (tells_of O.Sink out.new) result }
{
    match made {
        Some(made) => {
            let second = Case { name, second: true };
            write_made(pen, stack, second, made, out)
        }
        None => Ok(()),
    }
}

/// Puts the lines of what is made of an entry: in its first case, and in its second where there is one.
pub(crate) fn write_cases<O: Sink>(
    pen: &mut Pen,
    stack: &Stack,
    name: Name,
    cases: &Cases,
    out: &mut O,
) -> Result<(), SinkError>
    ensures { Wrote (case_lines (stack_tree stack.now) name (first_tree cases.now) (second_tree cases.now))
        (tells_of O.Sink out.old) (tells_of O.Sink out.new) result }
{
    let first = Case {
        name,
        second: false,
    };
    write_made(pen, stack, first, &cases.first, out)?;
    write_second(pen, stack, name, &cases.second, out)
}

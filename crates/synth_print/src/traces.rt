//! The traces of bypasses as a file.

ghost use Rattle.std.specs.Prelude.{◌≡◌, ◌++◌, ◌∷◌, [], true, OnOk, codes, map, option_map};
ghost use Rattle.std.specs.List.{enumerate_from, flat_map};
ghost use Rattle.bypass_mean.specs.Lines.{ended_line, file_lines, trace_lines};
ghost use Rattle.bypass_mean.specs.Text.{operation_lines};
ghost use Rattle.stack_judge.specs.Answer.{stack_tree};
ghost use Rattle.outside.specs.Lines.{Wrote};
ghost use Rattle.outside.specs.Tells.{tells_of};
ghost use Rattle.stack_shapes.specs.Lists.{plan_tree};
ghost use Rattle.stack_shapes.specs.Trees.{plans_tree};
ghost use Rattle.synth_print.specs.Entries.{cases_shown};
ghost use Rattle.synth_print.specs.Lines.{ended_lines};
ghost use Rattle.synth_print.specs.Traces.{all_traces, case_traces, found_traces, plan_traces, plan_turn};
ghost use Rattle.synth_print.specs.Traces.{second_traces, trace_heading};
ghost use Rattle.synth_print.specs.declared.name.Name.TheVariants as names;
ghost use Rattle.trace_core.specs.Bypasses.{bypasses_tree, first_tree, made_tree, second_tree};
ghost use Rattle.trace_core.specs.Trees.{trace_tree};

use crate::entries::push_name;
use crate::handler::write_trace;
use crate::name::{Case, Name};
use crate::pen::Pen;
use crate::print::cases_at;
use msg_core::Memory;
use outside::{Sink, SinkError, put_line};
use report_lines::Line;
use stack_judge::Stack;
use stack_shapes::{Plan, Plans};
use std::alloc::Global;
use trace_core::{Bypasses, Cases, Made, Trace};

/// Builds the line before the trace of a case of an entry.
fn build_heading(line: &mut Line, name: Name, second: bool) -> Result<(), Memory>
    ensures { OnOk result (line.new ≡ line.old ++ ended_line (trace_heading name second)) }
{
    line.text(b"entry ")?;
    push_name(line, name)?;
    if second {
        line.text(b" case 2\n")
    } else {
        line.text(b" case 1\n")
    }
}

/// Puts the line before the trace of a case of an entry.
fn write_heading<O: Sink>(
    line: &mut Line,
    name: Name,
    second: bool,
    out: &mut O,
) -> Result<(), SinkError>
    ensures { Wrote (ended_line (trace_heading name second) ∷ []) (tells_of O.Sink out.old) (tells_of O.Sink out.new)
        result }
{
    line.clear();
    build_heading(line, name, second)?;
    put_line(line.slice(), out)
}

/// Puts the trace of a case of an entry after its heading.
fn write_headed<O: Sink>(
    pen: &mut Pen,
    stack: &Stack,
    case: Case,
    trace: &Trace,
    out: &mut O,
) -> Result<(), SinkError>
    ensures { Wrote (ended_line (trace_heading case.name case.second) ∷
        ended_lines (operation_lines true (stack_tree stack.now) (trace_tree trace.now)))
        (tells_of O.Sink out.old) (tells_of O.Sink out.new) result }
{
    write_heading(&mut pen.line, case.name, case.second, out)?;
    write_trace(pen, stack, trace, out)
}

/// Puts the trace of an entry in a case, if there is one.
fn write_made<O: Sink>(
    pen: &mut Pen,
    stack: &Stack,
    case: Case,
    made: &Made,
    out: &mut O,
) -> Result<(), SinkError>
    ensures { Wrote
        (ended_lines (trace_lines (stack_tree stack.now) (trace_heading case.name case.second) (made_tree made.now)))
        (tells_of O.Sink out.old) (tells_of O.Sink out.new) result }
{
    match made {
        Made::Fused(bypass) => write_headed(pen, stack, case, &bypass.trace, out),
        Made::Absent(_) => Ok(()),
    }
}

/// Puts the trace of an entry in its second case, if there is one.
fn write_second<O: Sink>(
    pen: &mut Pen,
    stack: &Stack,
    name: Name,
    made: &Option<Made>,
    out: &mut O,
) -> Result<(), SinkError>
    ensures { Wrote (second_traces (stack_tree stack.now) name (option_map made_tree made.now))
        (tells_of O.Sink out.old) (tells_of O.Sink out.new) result }
{
    match made {
        Some(made) => {
            let second = Case { name, second: true };
            write_made(pen, stack, second, made, out)
        }
        None => Ok(()),
    }
}

/// Puts the traces of an entry: in its first case, and in its second.
fn write_cases<O: Sink>(
    pen: &mut Pen,
    stack: &Stack,
    name: Name,
    cases: &Cases,
    out: &mut O,
) -> Result<(), SinkError>
    ensures { Wrote (case_traces (stack_tree stack.now) name (first_tree cases.now) (second_tree cases.now))
        (tells_of O.Sink out.old) (tells_of O.Sink out.new) result }
{
    let first = Case {
        name,
        second: false,
    };
    write_made(pen, stack, first, &cases.first, out)?;
    write_second(pen, stack, name, &cases.second, out)
}

/// Puts the traces of an entry, if anything is made of it.
fn write_found<O: Sink>(
    pen: &mut Pen,
    stack: &Stack,
    name: Name,
    cases: Option<&Cases>,
    out: &mut O,
) -> Result<(), SinkError>
    ensures { Wrote (found_traces (stack_tree stack.now) name (cases_shown cases.entry))
        (tells_of O.Sink out.old) (tells_of O.Sink out.new) result }
{
    match cases {
        Some(cases) => write_cases(pen, stack, name, cases, out),
        None => Ok(()),
    }
}

/// Puts the traces of the entry of a plan.
fn write_planned<O: Sink>(
    pen: &mut Pen,
    stack: &Stack,
    bypasses: &Bypasses,
    number: usize,
    out: &mut O,
) -> Result<(), SinkError>
    ensures { Wrote (plan_traces (stack_tree stack.now) (bypasses_tree bypasses.now) number)
        (tells_of O.Sink out.old) (tells_of O.Sink out.new) result }
{
    let name = Name::Plan(number as u64);
    write_found(pen, stack, name, cases_at(bypasses, number), out)
}

/// Puts the traces of the entries of plans.
fn write_plans<O: Sink>(
    pen: &mut Pen,
    stack: &Stack,
    plans: &[Plan],
    bypasses: &Bypasses,
    out: &mut O,
) -> Result<(), SinkError>
    ensures { Wrote (flat_map (plan_turn (stack_tree stack.now) (bypasses_tree bypasses.now))
        (enumerate_from 0 (map plan_tree plans.now)))
        (tells_of O.Sink out.old) (tells_of O.Sink out.new) result }
{
    for k in 0..plans.len() {
        write_planned(pen, stack, bypasses, k, out)?;
    }
    Ok(())
}

/// Puts the traces of the application's own entries.
fn write_own<O: Sink>(
    pen: &mut Pen,
    stack: &Stack,
    bypasses: &Bypasses,
    out: &mut O,
) -> Result<(), SinkError>
    ensures { Wrote (case_traces (stack_tree stack.now) names.Cast (first_tree bypasses.now.cast)
        (second_tree bypasses.now.cast)
        ++ case_traces (stack_tree stack.now) names.Send (first_tree bypasses.now.send) (second_tree bypasses.now.send))
        (tells_of O.Sink out.old) (tells_of O.Sink out.new) result }
{
    write_cases(pen, stack, Name::Cast, &bypasses.cast, out)?;
    write_cases(pen, stack, Name::Send, &bypasses.send, out)
}

/// Puts the traces of all entries.
fn write_entries<O: Sink>(
    pen: &mut Pen,
    stack: &Stack,
    plans: &[Plan],
    bypasses: &Bypasses,
    out: &mut O,
) -> Result<(), SinkError>
    ensures { Wrote (all_traces (stack_tree stack.now) (map plan_tree plans.now) bypasses.now)
        (tells_of O.Sink out.old) (tells_of O.Sink out.new) result }
{
    write_own(pen, stack, bypasses, out)?;
    write_plans(pen, stack, plans, bypasses, out)
}

/// Puts the traces of all entries, and the last line.
fn write_rest<O: Sink>(
    alloc: Global,
    stack: &Stack,
    plans: &[Plan],
    bypasses: &Bypasses,
    out: &mut O,
) -> Result<(), SinkError>
    ensures { Wrote (all_traces (stack_tree stack.now) (map plan_tree plans.now) bypasses.now ++
        ended_line (codes "end") ∷ [])
        (tells_of O.Sink out.old) (tells_of O.Sink out.new) result }
{
    let mut pen = Pen::new(alloc);
    write_entries(&mut pen, stack, plans, bypasses, out)?;
    put_line(b"end\n", out)
}

/// Puts all lines.
fn write_file<O: Sink>(
    alloc: Global,
    stack: &Stack,
    plans: &[Plan],
    bypasses: &Bypasses,
    out: &mut O,
) -> Result<(), SinkError>
    ensures { Wrote (map ended_line
        (file_lines (stack_tree stack.now) (map plan_tree plans.now) (bypasses_tree bypasses.now)))
        (tells_of O.Sink out.old) (tells_of O.Sink out.new) result }
{
    put_line(b"bypasses 1\n", out)?;
    write_rest(alloc, stack, plans, bypasses, out)
}

/// Puts the traces of a stack's bypasses as a file, each line in one put: each trace that was made, after the line of
/// its entry and case, with a line for each note. No more than one line is held at a time.
pub fn print_traces<O: Sink>(
    alloc: Global,
    stack: &Stack,
    plans: &Plans,
    bypasses: &Bypasses,
    out: &mut O,
) -> Result<(), SinkError>
    ensures { Wrote (map ended_line
        (file_lines (stack_tree stack.now) (plans_tree plans.now) (bypasses_tree bypasses.now)))
        (tells_of O.Sink out.old) (tells_of O.Sink out.new) result }
{
    write_file(alloc, stack, plans.slice(), bypasses, out)
}

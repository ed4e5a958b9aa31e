//! The text of bypasses.

ghost use Rattle.std.specs.Prelude.{◌≡◌, ◌<◌, ◌++◌, ◌∷◌, [], OnOk, length, map, slice_get, slice_index_or};
ghost use Rattle.std.specs.List.{enumerate_from, flat_map};
ghost use Rattle.bypass_mean.specs.Lines.{end_line, ended_line, printed_lines};
ghost use Rattle.stack_judge.specs.Answer.{stack_tree};
ghost use Rattle.outside.specs.Lines.{Wrote};
ghost use Rattle.outside.specs.Tells.{tells_of};
ghost use Rattle.stack_shapes.specs.Lists.{plan_tree};
ghost use Rattle.stack_shapes.specs.Trees.{plans_tree};
ghost use Rattle.synth_print.specs.Entries.{case_lines, cases_shown, counted_line, found_lines, plan_text, plan_turn};
ghost use Rattle.synth_print.specs.declared.name.Name.TheVariants as names;
ghost use Rattle.trace_core.specs.Bypasses.{bypasses_tree, first_tree, second_tree};

use crate::counts::Counts;
use crate::entries::write_cases;
use crate::name::Name;
use crate::pen::Pen;
use crate::plans::build_plan;
use msg_core::Memory;
use outside::{Sink, SinkError, put_line};
use report_lines::Line;
use stack_judge::Stack;
use stack_shapes::{Plan, Plans};
use std::alloc::Global;
use trace_core::{Bypasses, Cases};

/// Puts the line of a plan.
fn write_plan<O: Sink>(
    line: &mut Line,
    stack: &Stack,
    number: u64,
    plan: &Plan,
    out: &mut O,
) -> Result<(), SinkError>
    ensures { Wrote (plan_text (stack_tree stack.now) number (plan_tree plan.now) ∷ [])
        (tells_of O.Sink out.old) (tells_of O.Sink out.new) result }
{
    line.clear();
    build_plan(line, stack, number, plan)?;
    put_line(line.slice(), out)
}

/// Puts the lines of what is made of an entry, if there is any.
fn write_found<O: Sink>(
    pen: &mut Pen,
    stack: &Stack,
    name: Name,
    cases: Option<&Cases>,
    out: &mut O,
) -> Result<(), SinkError>
    ensures { Wrote (found_lines (stack_tree stack.now) name (cases_shown cases.entry))
        (tells_of O.Sink out.old) (tells_of O.Sink out.new) result }
{
    match cases {
        Some(cases) => write_cases(pen, stack, name, cases, out),
        None => Ok(()),
    }
}

/// What is made of the entry of a plan, if there is any.
pub(crate) fn cases_at(bypasses: &Bypasses, number: usize) -> Option<&Cases>
    ensures { cases_shown result ≡ slice_get bypasses.now.plans.items number }
{
    bypasses.plans.get(number)
}

/// A plan with its number.
#[derive(Clone, Copy)]
struct NumberedPlan<'a> {
    number: usize,
    plan: &'a Plan,
}

/// Puts the line of a plan, and the lines of its entry.
fn write_turn<O: Sink>(
    pen: &mut Pen,
    stack: &Stack,
    numbered: NumberedPlan<'_>,
    bypasses: &Bypasses,
    out: &mut O,
) -> Result<(), SinkError>
    ensures { Wrote (plan_turn (stack_tree stack.now) (bypasses_tree bypasses.now)
        (numbered.entry.number, plan_tree numbered.entry.plan.now))
        (tells_of O.Sink out.old) (tells_of O.Sink out.new) result }
{
    let number = numbered.number as u64;
    write_plan(&mut pen.line, stack, number, numbered.plan, out)?;
    let name = Name::Plan(number);
    write_found(pen, stack, name, cases_at(bypasses, numbered.number), out)
}

/// The plan of a number.
fn plan_at(plans: &[Plan], number: usize) -> &Plan
    requires { number < length plans.now }
    ensures { result.now ≡ slice_index_or plans.now number result.now }
{
    &plans[number]
}

/// Puts the lines of the plans, each before its entry.
fn write_plans<O: Sink>(
    pen: &mut Pen,
    stack: &Stack,
    plans: &[Plan],
    bypasses: &Bypasses,
    out: &mut O,
) -> Result<(), SinkError>
    ensures { Wrote (flat_map (plan_turn (stack_tree stack.now) (bypasses_tree bypasses.now))
        (enumerate_from 0 (map plan_tree plans.now)))
        (tells_of O.Sink out.old) (tells_of O.Sink out.new) result }
{
    for k in 0..plans.len() {
        let plan = plan_at(plans, k);
        write_turn(pen, stack, NumberedPlan { number: k, plan }, bypasses, out)?;
    }
    Ok(())
}

/// Builds the line of how many there are.
fn build_counted(line: &mut Line, counts: Counts) -> Result<(), Memory>
    ensures { OnOk result (line.new ≡ line.old ++ ended_line (counted_line counts)) }
{
    line.text(b"end ")?;
    line.number(counts.fused)?;
    line.text(b" fused ")?;
    line.number(counts.absent)?;
    line.text(b" absent\n")
}

/// Counts, and builds the last line.
fn build_end(line: &mut Line, bypasses: &Bypasses) -> Result<(), Memory>
    ensures { OnOk result (line.new ≡ line.old ++ ended_line (end_line (bypasses_tree bypasses.now))) }
{
    let counts = Counts::of(bypasses)?;
    build_counted(line, counts)
}

/// Puts the last line.
fn write_end<O: Sink>(line: &mut Line, bypasses: &Bypasses, out: &mut O) -> Result<(), SinkError>
    ensures { Wrote (ended_line (end_line (bypasses_tree bypasses.now)) ∷ [])
        (tells_of O.Sink out.old) (tells_of O.Sink out.new) result }
{
    line.clear();
    build_end(line, bypasses)?;
    put_line(line.slice(), out)
}

/// Puts the lines of the application's own entries.
fn write_own<O: Sink>(
    pen: &mut Pen,
    stack: &Stack,
    bypasses: &Bypasses,
    out: &mut O,
) -> Result<(), SinkError>
    ensures { Wrote (case_lines (stack_tree stack.now) names.Cast (first_tree bypasses.now.cast)
        (second_tree bypasses.now.cast)
        ++ case_lines (stack_tree stack.now) names.Send (first_tree bypasses.now.send) (second_tree bypasses.now.send))
        (tells_of O.Sink out.old) (tells_of O.Sink out.new) result }
{
    write_cases(pen, stack, Name::Cast, &bypasses.cast, out)?;
    write_cases(pen, stack, Name::Send, &bypasses.send, out)
}

/// Puts the lines of all entries.
fn write_entries<O: Sink>(
    pen: &mut Pen,
    stack: &Stack,
    plans: &[Plan],
    bypasses: &Bypasses,
    out: &mut O,
) -> Result<(), SinkError>
    ensures { Wrote (case_lines (stack_tree stack.now) names.Cast (first_tree bypasses.now.cast)
        (second_tree bypasses.now.cast)
        ++ case_lines (stack_tree stack.now) names.Send (first_tree bypasses.now.send) (second_tree bypasses.now.send)
        ++ flat_map (plan_turn (stack_tree stack.now) (bypasses_tree bypasses.now))
        (enumerate_from 0 (map plan_tree plans.now)))
        (tells_of O.Sink out.old) (tells_of O.Sink out.new) result }
{
    write_own(pen, stack, bypasses, out)?;
    write_plans(pen, stack, plans, bypasses, out)
}

/// Puts all lines.
fn write_all<O: Sink>(
    pen: &mut Pen,
    stack: &Stack,
    plans: &[Plan],
    bypasses: &Bypasses,
    out: &mut O,
) -> Result<(), SinkError>
    ensures { Wrote (printed_lines (stack_tree stack.now) (map plan_tree plans.now) (bypasses_tree bypasses.now))
        (tells_of O.Sink out.old) (tells_of O.Sink out.new) result }
{
    write_entries(pen, stack, plans, bypasses, out)?;
    write_end(&mut pen.line, bypasses, out)
}

/// Puts the text of a stack's bypasses, each line in one put: each entry with what is made of it, each plan before its
/// entry, and how many there are. No more than one line is held at a time.
pub fn print_bypasses<O: Sink>(
    alloc: Global,
    stack: &Stack,
    plans: &Plans,
    bypasses: &Bypasses,
    out: &mut O,
) -> Result<(), SinkError>
    ensures { Wrote (printed_lines (stack_tree stack.now) (plans_tree plans.now) (bypasses_tree bypasses.now))
        (tells_of O.Sink out.old) (tells_of O.Sink out.new) result }
{
    let mut pen = Pen::new(alloc);
    write_all(&mut pen, stack, plans.slice(), bypasses, out)
}

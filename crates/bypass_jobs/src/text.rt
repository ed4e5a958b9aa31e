//! What is printed of a stack's bypasses. The memory of shapes and bypasses goes back with that of the program.
#![tactic(auto, using(outside::proofs::Gaining::begins_none))]

ghost use Rattle.std.specs.Prelude.{◌≡◌};
ghost use Rattle.stack_judge.specs.Answer.{stack_tree};
ghost use Rattle.outside.specs.Lines.{Wrote};
ghost use Rattle.outside.specs.Tells.{tells_of};
ghost use Rattle.stack_mean.specs.Plans.{plans_of};
ghost use Rattle.stack_shapes.specs.Shapes.{short_shapes};
ghost use Rattle.stack_shapes.specs.Trees.{plans_tree};
ghost use Rattle.trace_core.specs.Bypasses.{bypasses_tree};
ghost use Rattle.bypass_jobs.specs.Printing.{own_lines, printing};

use crate::printing::Printing;
use outside::{Sink, SinkError};
use stack_judge::Stack;
use stack_shapes::{Plans, StackShapes};
use std::alloc::Global;
use std::mem::forget;
use synth::synth;
use synth_print::{print_bypasses, print_traces};
use trace_core::Bypasses;

/// The bypasses that were made of a stack with these plans.
#[derive(Clone, Copy)]
struct Synthesis<'a> {
    stack: &'a Stack,
    plans: &'a Plans,
    bypasses: &'a Bypasses,
}

/// Prints a stack's bypasses, a line a put.
pub(crate) fn put_text<O: Sink>(
    alloc: Global,
    what: Printing,
    stack: &Stack,
    out: &mut O,
) -> Result<(), SinkError>
    ensures { Wrote (own_lines what (stack_tree stack.now)) (tells_of O.Sink out.old) (tells_of O.Sink out.new) result }
{
    let shapes = StackShapes::of(alloc, stack)?;
    let wrote = put_bypasses(alloc, what, stack, &shapes, out);
    forget(shapes);
    wrote
}

/// Prints the bypasses of a stack whose shapes are drawn.
fn put_bypasses<'a, O: Sink>(
    alloc: Global,
    what: Printing,
    stack: &'a Stack,
    shapes: &'a StackShapes,
    out: &mut O,
) -> Result<(), SinkError>
    requires plans { plans_tree shapes.now.plans ≡ plans_of (stack_tree stack.now) }
    requires entries { shapes.now.entries ≡ short_shapes (stack_tree stack.now) (plans_of (stack_tree stack.now)) }
    ensures { Wrote (own_lines what (stack_tree stack.now)) (tells_of O.Sink out.old) (tells_of O.Sink out.new) result }
{
    let bypasses = synth(alloc, stack, shapes)?;
    let made = Synthesis {
        stack,
        plans: &shapes.plans,
        bypasses: &bypasses,
    };
    let wrote = put(alloc, what, made, out);
    forget(bypasses);
    wrote
}

/// Prints bypasses.
fn put<O: Sink>(
    alloc: Global,
    what: Printing,
    made: Synthesis<'_>,
    out: &mut O,
) -> Result<(), SinkError>
    ensures { Wrote (printing what (stack_tree made.entry.stack.now) (plans_tree made.entry.plans.now)
        (bypasses_tree made.entry.bypasses.now))
        (tells_of O.Sink out.old) (tells_of O.Sink out.new) result }
{
    let Synthesis {
        stack,
        plans,
        bypasses,
    } = made;
    match what {
        Printing::Handlers => print_bypasses(alloc, stack, plans, bypasses, out),
        Printing::Traces => print_traces(alloc, stack, plans, bypasses, out),
    }
}

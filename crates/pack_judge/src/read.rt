//! Files of traces, read and judged.

ghost use Rattle.std.specs.Prelude.{◌≡◌, ◌≤◌, IfOk, length, map};
ghost use Rattle.bypass_laws.specs.Making.{IsSound, bypasses_of, simplest};
ghost use Rattle.bypass_laws.specs.Stack.{AreOfStack};
ghost use Rattle.stack_judge.specs.Answer.{stack_tree};
ghost use Rattle.pack_mean.specs.Accepted.{longest_file};
ghost use Rattle.stack_mean.specs.Plans.{plans_of};
ghost use Rattle.stack_shapes.specs.Lists.{plan_tree};
ghost use Rattle.stack_shapes.specs.Shapes.{short_shapes};
ghost use Rattle.stack_shapes.specs.Trees.{plans_tree};
ghost use Rattle.stack_shapes.specs.declared.types.TheConstants.{MOST_PLANS};
ghost use Rattle.trace_core.specs.Bypasses.{bypasses_tree};
ghost use Rattle.pack_judge.specs.Judged.{Judges, JudgesInto};

use crate::cases::fill_all;
use crate::due::all_due;
use crate::error::BypassError;
use pack_read::{LONGEST_FILE, read_traces};
use stack_judge::Stack;
use stack_shapes::{Plan, StackShapes};
use std::alloc::Global;
use std::collections::VecDeque;
use synth::synth;
use trace_core::Bypasses;

/// The bypasses that a file of traces gives for a stack, if it is accepted: of each case its trace, where that joins no
/// more than the stack's own, and else the latter, with their handlers. The file is refused for its length, else for
/// its first line out of form, else for the first case whose trace does something else than the stack's own.
pub fn read_bypasses(alloc: Global, stack: &Stack, text: &[u8]) -> Result<Bypasses, BypassError>
    ensures judged { Judges (stack_tree stack.now) text.now result }
    ensures of_stack { IsSound (stack_tree stack.now) →
        IfOk result (λ b. AreOfStack (stack_tree stack.now) (bypasses_tree b)) }
{
    if text.len() > LONGEST_FILE {
        return Err(BypassError::TooLarge);
    }
    let shapes = StackShapes::of(alloc, stack)?;
    read_with(alloc, stack, &shapes, text)
}

/// The bypasses that a file gives for a stack whose shapes are drawn, if its traces are accepted.
fn read_with(
    alloc: Global,
    stack: &Stack,
    shapes: &StackShapes,
    text: &[u8],
) -> Result<Bypasses, BypassError>
    requires plans { plans_tree shapes.now.plans ≡ plans_of (stack_tree stack.now) }
    requires entries { shapes.now.entries ≡ short_shapes (stack_tree stack.now) (plans_of (stack_tree stack.now)) }
    requires short { length text.now ≤ longest_file }
    ensures { Judges (stack_tree stack.now) text.now result }
{
    let mut own = synth(alloc, stack, shapes)?;
    read_into(alloc, stack, shapes.plans.slice(), text, &mut own)?;
    Ok(own)
}

/// Reads the traces of a file, and puts them in place of the stack's own.
fn read_into(
    alloc: Global,
    stack: &Stack,
    plans: &[Plan],
    text: &[u8],
    own: &mut Bypasses,
) -> Result<(), BypassError>
    requires plans { map plan_tree plans.now ≡ plans_of (stack_tree stack.now) }
    requires few { length plans.now ≤ MOST_PLANS }
    requires own { bypasses_tree own.old ≡ bypasses_of simplest (stack_tree stack.now) }
    requires short { length text.now ≤ longest_file }
    ensures { JudgesInto (stack_tree stack.now) text.now own.new result }
{
    let due = all_due(alloc, plans, own)?;
    let traces = read_traces(alloc, stack, due.as_slice(), text)?;
    fill_all(alloc, own, &mut VecDeque::from_vec(traces))
}

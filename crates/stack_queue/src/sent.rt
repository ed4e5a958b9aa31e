//! Lists for what is sent.

ghost use Rattle.std.specs.Prelude.{◌≡◌, [], IfOk};
ghost use Rattle.circular_buffer.specs.Buffer.{buffer};
ghost use Rattle.stack_mean.specs.Acceptance.{largest_weight};
ghost use Rattle.stack_judge.specs.Answer.{stack_tree};

use pool_message::Events;
use stack_judge::Stack;
use std::alloc::{AllocError, Global};

/// No event, with places for the weight of a stack: enough for what a visit sends and for what comes out of a run.
pub fn events_for(alloc: Global, stack: &Stack) -> Result<Events, AllocError>
    ensures { IfOk result (λ events. events ≡ buffer [] (largest_weight (stack_tree stack.now))) }
{
    stack.law_accepted();
    Events::with_places(alloc, stack.weight() as usize)
}

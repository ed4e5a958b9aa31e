//! A law of room, the contract of a function that does nothing.

ghost use Rattle.std.specs.Prelude.{◌≤◌};
ghost use Rattle.stack_mean.specs.Acceptance.{largest_weight, weight_limit};
ghost use Rattle.stack_judge.specs.Answer.{stack_tree};

use stack_judge::Stack;

/// A stack that is accepted weighs at most 65,536, so it has no more outputs in a step.
pub fn law_accepted_is_light(stack: &Stack)
    ensures { largest_weight (stack_tree stack.now) ≤ weight_limit }
{
    stack.law_accepted();
}

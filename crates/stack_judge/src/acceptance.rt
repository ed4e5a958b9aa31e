//! Which stacks are accepted.

ghost use Rattle.weight_laws.specs.Orderly.{IsOrderly};
ghost use Rattle.stack_judge.specs.Answer.{IsAnswer};
ghost use Rattle.typed_layer.specs.Places.{typed_tree};

use crate::error::StackError;
use crate::judge::judge;
use crate::stack::Stack;
use std::alloc::Global;
use typed_layer::Typed;

/// The stack of these layers, if no event can follow from itself, and the tasks and the joins that can follow from an
/// entry are within their limits; else the first reason for which it isn't accepted.
pub fn accept(alloc: Global, typed: Typed) -> Result<Stack, StackError>
    requires { IsOrderly (typed_tree typed) }
    ensures { IsAnswer (typed_tree typed) result }
{
    let weight = judge(alloc, &typed)?;
    Ok(Stack { typed, weight })
}

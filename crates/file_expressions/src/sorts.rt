//! What names and messages are: numbers, messages of the layers above, or parts.

ghost use Rattle.std.specs.Prelude.{◌≡◌};
ghost use Rattle.layer_ast.specs.View.{argument_tree, built_tree, expression_tree, message_tree};
ghost use Rattle.fault_mean.specs.Sorts as spec;
ghost use Rattle.file_scope.specs.Scope.{scope_of};

use crate::items::held_sort;
use file_scope::{Scope, declares_number, declares_param};
use layer_ast::{Argument, Built, Expression, MessageExpression};
use layer_words::{Sort, Word};

/// The sort of a visible name, where it stands for a number or a message.
pub fn name_sort(scope: &Scope, word: &Word) -> Option<Sort>
    ensures { result ≡ spec.name_sort (scope_of scope.now) word.now }
{
    match scope.local(word) {
        Some(sort) => Some(sort),
        None => {
            if declares_number(scope, word) {
                Some(Sort::Int)
            } else {
                None
            }
        }
    }
}

/// The sort of a message by its outermost form, where that says one.
pub fn built_sort(scope: &Scope, b: &Built) -> Option<Sort>
    ensures { result ≡ spec.built_sort (scope_of scope.now) (built_tree b.now) }
{
    match b {
        Built::Nothing { .. } | Built::Cut { .. } => Some(Sort::Part),
        Built::Held { queue, .. } => held_sort(scope, queue),
        Built::Tail { .. } | Built::Join { .. } => Some(Sort::Msg),
    }
}

/// The sort of a message.
pub fn message_sort(scope: &Scope, m: &MessageExpression) -> Option<Sort>
    ensures { result ≡ spec.message_sort (scope_of scope.now) (message_tree m.now) }
{
    match m {
        MessageExpression::Bare(name) => name_sort(scope, &name.word),
        MessageExpression::Built(b) => built_sort(scope, b),
    }
}

/// The sort of an argument.
pub fn argument_sort(scope: &Scope, a: &Argument) -> Option<Sort>
    ensures { result ≡ spec.argument_sort (scope_of scope.now) (argument_tree a.now) }
{
    match a {
        Argument::Value(e) => match e {
            Expression::Named { name, index } => match index {
                None => name_sort(scope, &name.word),
                Some(_) => Some(Sort::Int),
            },
            _ => Some(Sort::Int),
        },
        Argument::Content(b) => built_sort(scope, b),
    }
}

/// Whether an expression is made of what an initial value may be made of.
pub fn is_initial(scope: &Scope, e: &Expression) -> bool
    ensures { result ≡ spec.is_initial (scope_of scope.now).layer (expression_tree e.now) }
{
    match e {
        Expression::Number { .. }
        | Expression::Me { .. }
        | Expression::Members { .. }
        | Expression::Ltime { .. } => true,
        Expression::Named { name, index } => match index {
            None => declares_param(scope, &name.word),
            Some(_) => false,
        },
        Expression::Binary { left, right, .. } => is_initial(scope, left)
            && is_initial(scope, right),
        Expression::Apply { operand, .. } => is_initial(scope, operand),
        Expression::Pick {
            condition,
            first,
            second,
            ..
        } => is_initial(scope, condition) && is_initial(scope, first) && is_initial(scope, second),
        _ => false,
    }
}

//! The places of the first tokens of expressions, messages, arguments and sizes.

ghost use Rattle.std.specs.Prelude.{◌≡◌};
ghost use Rattle.layer_ast.specs.View.{built_tree, expression_tree, message_tree, size_tree};
ghost use Rattle.fault_mean.specs.Sorts as spec;

use layer_ast::{Built, Expression, MessageExpression, Size};
use layer_words::At;

/// The place of an expression.
pub fn expression_at(e: &Expression) -> At
    ensures { result ≡ spec.expression_at (expression_tree e.now) }
{
    match e {
        Expression::Number { at, .. }
        | Expression::Me { at }
        | Expression::Members { at }
        | Expression::Ltime { at }
        | Expression::Rows { at, .. }
        | Expression::Item { at, .. }
        | Expression::Size { at, .. }
        | Expression::Binary { at, .. }
        | Expression::Apply { at, .. }
        | Expression::Pick { at, .. } => *at,
        Expression::Square { name, .. } => name.at,
        Expression::Named { name, index } => match index {
            None => name.at,
            Some(_) => name.at,
        },
    }
}

/// The place of a message that is no bare name.
pub fn built_at(b: &Built) -> At
    ensures { result ≡ spec.built_at (built_tree b.now) }
{
    match b {
        Built::Nothing { at }
        | Built::Held { at, .. }
        | Built::Cut { at, .. }
        | Built::Tail { at, .. }
        | Built::Join { at, .. } => *at,
    }
}

/// The place of a message.
pub fn message_at(m: &MessageExpression) -> At
    ensures { result ≡ spec.message_at (message_tree m.now) }
{
    match m {
        MessageExpression::Bare(name) => name.at,
        MessageExpression::Built(b) => built_at(b),
    }
}

/// The place of a size.
pub fn size_at(s: &Size) -> At
    ensures { result ≡ spec.size_at (size_tree s.now) }
{
    match s {
        Size::Number { at, .. } => *at,
        Size::Named { name } => name.at,
    }
}

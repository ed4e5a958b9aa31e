//! The values that numbers have at first.

ghost use Rattle.std.specs.Prelude.{◌≡◌};
ghost use Rattle.typed_layer.specs.View.{expression_tree};
ghost use Rattle.cell_store.specs.Fresh.{initial_value};

use crate::membership::Membership;
use typed_layer::{Expression, applied, applied_to};

/// What an initial expression is worth at a member of a view. There are no cells and no scope yet, whose numbers and
/// sizes are read as 0.
#[tactic(auto, using(crate::proofs::Sizeless::no_size))]
pub fn initial_value(expression: &Expression, membership: Membership) -> u32
    ensures { result ≡ initial_value (expression_tree expression.now) membership.me membership.count membership.ltime }
{
    match expression {
        Expression::Number(number) => *number,
        Expression::Me => membership.me,
        Expression::Count => membership.count,
        Expression::Ltime => membership.ltime,
        Expression::Binary {
            operator,
            left,
            right,
        } => {
            let left = initial_value(left, membership);
            let right = initial_value(right, membership);
            applied(*operator, left, right)
        }
        Expression::Apply { function, operand } => {
            let operand = initial_value(operand, membership);
            applied_to(*function, operand)
        }
        Expression::Pick {
            condition,
            first,
            second,
        } => {
            if initial_value(condition, membership) != 0 {
                initial_value(first, membership)
            } else {
                initial_value(second, membership)
            }
        }
        Expression::Local(_)
        | Expression::Scalar(_)
        | Expression::Element { .. }
        | Expression::Square { .. }
        | Expression::Rows { .. }
        | Expression::Item { .. } => 0,
        Expression::Size(_) => 0,
    }
}

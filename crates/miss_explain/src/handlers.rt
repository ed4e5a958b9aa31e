//! The decisions of handlers on their predicted way.

ghost use Rattle.layer_ast.specs.View.{expected_tree, handler_tree};
ghost use Rattle.miss_mean.specs.Spots.{expected_lines, handler_lines};
ghost use Rattle.miss_explain.specs.Search.{Passes};

use crate::search::{Search, pass};
use crate::statements::pass_block;
use file_expressions::expression_at;
use layer_ast::{Expected, Handler};
use layer_mean::Case;

/// Passes the decision of a handler that is common where a condition holds.
#[tactic(auto, using(crate::proofs::Passing::passes_none))]
fn pass_expected(search: &mut Search, expected: &Expected)
    ensures { Passes search.old (expected_lines (expected_tree expected.now)) search.new }
{
    match expected {
        Expected::Always => {}
        Expected::Common(condition) => pass(search, expression_at(condition)),
        Expected::Rare => {}
    }
}

/// Passes the decisions of a handler.
#[tactic(auto, using(crate::proofs::Passing::passes_both))]
pub(crate) fn pass_handler(search: &mut Search, case: Case, handler: &Handler)
    ensures { Passes search.old (handler_lines case (handler_tree handler.now)) search.new }
{
    pass_expected(search, &handler.expected);
    pass_block(search, case, &handler.block);
}

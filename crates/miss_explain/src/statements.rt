//! The decisions of statements on their predicted way.

ghost use Rattle.std.specs.Prelude.{◌≡◌};
ghost use Rattle.layer_ast.specs.View.{block_tree, statement_tree, statement_trees};
ghost use Rattle.miss_mean.specs.Spots.{block_lines, statement_lines};
ghost use Rattle.miss_explain.specs.Search.{Passes, is_entered};

use crate::search::{Search, pass};
use layer_ast::{Block, Statement};
use layer_mean::Case;
use layer_words::Likely;

/// Whether a condition is predicted to go into its first block in a case.
fn is_entered(case: Case, likely: Likely) -> bool
    ensures { result ≡ is_entered case likely }
{
    match likely {
        Likely::First => true,
        Likely::Else => false,
        Likely::Two => match case {
            Case::First => true,
            Case::Second => false,
        },
    }
}

/// Passes the decisions of a block.
#[cycle(blocks)]
pub(crate) fn pass_block(search: &mut Search, case: Case, b: &Block)
    ensures { Passes search.old (block_lines case (block_tree b.now)) search.new }
{
    pass_statements(search, case, &b.statements);
}

/// Passes the decisions of statements, one statement after the other.
#[cycle(blocks)]
fn pass_statements(search: &mut Search, case: Case, all: &[Statement])
    ensures { Passes search.old (block_lines case (statement_trees all.now)) search.new }
{
    for s in all {
        pass_statement(search, case, s);
    }
}

/// Passes the decisions of a statement, and those of its predicted blocks.
#[cycle(blocks)]
#[tactic(auto, using(crate::proofs::Passing::passes_none, crate::proofs::Passing::passes_more))]
fn pass_statement(search: &mut Search, case: Case, s: &Statement)
    ensures { Passes search.old (statement_lines case (statement_tree s.now)) search.new }
{
    match s {
        Statement::Push { at, .. } => pass(search, *at),
        Statement::Take { at, block, .. } => {
            pass(search, *at);
            pass_block(search, case, block);
        }
        Statement::When {
            at,
            likely,
            block,
            ..
        } => {
            pass(search, *at);
            if is_entered(case, *likely) {
                pass_block(search, case, block);
            }
        }
        Statement::Choose {
            at,
            likely,
            block,
            otherwise,
            ..
        } => {
            pass(search, *at);
            if is_entered(case, *likely) {
                pass_block(search, case, block);
            } else {
                pass_block(search, case, otherwise);
            }
        }
        Statement::Each { at, .. } => pass(search, *at),
        Statement::Let { .. } => {}
        Statement::Set { .. } => {}
        Statement::SetSquare { .. } => {}
        Statement::Emit { .. } => {}
    }
}

//! What the statements of a handler declare, and the names of the maxima of its loops.

ghost use Rattle.std.specs.Prelude.{◌≡◌, ◌++◌, ◌∷◌, [], Some, OnOk};
ghost use Rattle.layer_ast.specs.View.{block_tree, names_tree, statement_tree, statement_trees};
ghost use Rattle.fault_mean.specs.Declared.{names_in};
ghost use Rattle.file_names.specs.Gathered.{Gathers, statements_in, statements_inside};

use crate::sizes::note_size;
use file_scope::Words;
use layer_ast::{Block, Name, Names, Statement};
use std::alloc::AllocError;

/// Adds the names of a list.
fn push_all(names: &mut Vec<Name>, all: &Names) -> Result<(), AllocError>
    ensures { OnOk result (names.new.items ≡ names.old.items ++ names_in (Some (names_tree all.now))) }
{
    names.push(all.first)?;
    names.extend_from_slice(&all.rest)?;
    Ok(())
}

/// Adds what a statement declares, and its maximum if that is a name.
#[tactic(auto, unfolding(crate::specs::Gathered::Gathers))]
fn own(names: &mut Vec<Name>, maxima: &mut Words, s: &Statement) -> Result<(), AllocError>
    ensures { OnOk result (Gathers names.old.items maxima.old (statement_tree s.now ∷ []) names.new.items maxima.new) }
{
    match s {
        Statement::Let { name, .. } => {
            names.push(*name)?;
            Ok(())
        }
        Statement::Take { names: taken, .. } => push_all(names, taken),
        Statement::Each { name, most, .. } => {
            names.push(*name)?;
            note_size(maxima, most)
        }
        Statement::Set { .. } => Ok(()),
        Statement::SetSquare { .. } => Ok(()),
        Statement::Push { .. } => Ok(()),
        Statement::When { .. } => Ok(()),
        Statement::Choose { .. } => Ok(()),
        Statement::Emit { .. } => Ok(()),
    }
}

/// Adds what the statements of a block declare, and those of their maxima that are names.
#[cycle(gather)]
#[tactic(auto, using(crate::proofs::Gathered::gathers_none, crate::proofs::Gathered::gathers_both))]
pub fn block(names: &mut Vec<Name>, maxima: &mut Words, b: &Block) -> Result<(), AllocError>
    ensures { OnOk result
        (Gathers names.old.items maxima.old (statements_in (block_tree b.now)) names.new.items maxima.new) }
{
    statements(names, maxima, &b.statements)
}

/// Adds what statements one after the other declare, and those of their maxima that are names.
#[cycle(gather)]
#[tactic(auto, using(crate::proofs::Gathered::gathers_none, crate::proofs::Gathered::gathers_more))]
fn statements(
    names: &mut Vec<Name>,
    maxima: &mut Words,
    all: &[Statement],
) -> Result<(), AllocError>
    ensures { OnOk result
        (Gathers names.old.items maxima.old (statements_in (statement_trees all.now)) names.new.items maxima.new) }
{
    for s in all {
        own(names, maxima, s)?;
        inside(names, maxima, s)?;
    }
    Ok(())
}

/// Adds what the statements inside a statement declare, and those of their maxima that are names.
#[cycle(gather)]
#[tactic(auto, using(crate::proofs::Gathered::gathers_none, crate::proofs::Gathered::gathers_both))]
fn inside(names: &mut Vec<Name>, maxima: &mut Words, s: &Statement) -> Result<(), AllocError>
    ensures { OnOk result
        (Gathers names.old.items maxima.old (statements_inside (statement_tree s.now)) names.new.items maxima.new) }
{
    match s {
        Statement::Push { otherwise, .. } => block(names, maxima, otherwise),
        Statement::When { block: first, .. } => block(names, maxima, first),
        Statement::Each { block: first, .. } => block(names, maxima, first),
        Statement::Choose {
            block: first,
            otherwise,
            ..
        } => {
            block(names, maxima, first)?;
            block(names, maxima, otherwise)?;
            Ok(())
        }
        Statement::Take {
            block: first,
            otherwise,
            ..
        } => {
            block(names, maxima, first)?;
            block(names, maxima, otherwise)?;
            Ok(())
        }
        Statement::Let { .. } => Ok(()),
        Statement::Set { .. } => Ok(()),
        Statement::SetSquare { .. } => Ok(()),
        Statement::Emit { .. } => Ok(()),
    }
}

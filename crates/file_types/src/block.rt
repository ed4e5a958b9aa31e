//! The statements of a handler, each in its scope.

ghost use Rattle.std.specs.Prelude.{◌≡◌, ◌∷◌, [], map, OnOk};
ghost use Rattle.layer_ast.specs.View.{block_tree, statement_tree, statement_trees};
ghost use Rattle.layer_words.specs.declared.sorts.Sort.TheVariants.{Int};
ghost use Rattle.fault_mean.specs.Scope as spec;
ghost use Rattle.file_expressions.specs.Found.{Finds};
ghost use Rattle.file_types.specs.Blocks.{block_faults, inner_faults, statement_faults};
ghost use Rattle.file_scope.specs.Scope.{local_of, locals_of, scope_after_all, scope_of};

use crate::statement;
use file_scope::{Found, Local, Scope, row_locals};
use layer_ast::{Block, Name, Statement};
use layer_words::Sort;
use std::alloc::{AllocError, Global};

/// The statements of a block, whose locals are visible in it alone.
#[cycle(blocks)]
pub fn block(
    alloc: Global,
    found: &mut Found,
    scope: &mut Scope,
    b: &Block,
) -> Result<(), AllocError>
    ensures { OnOk result (Finds found.old (block_faults (scope_of scope.old) (block_tree b.now)) found.new ×
        (scope_of scope.new ≡ scope_of scope.old)) }
{
    let outer = scope.len();
    statements(alloc, found, scope, &b.statements)?;
    scope.leave(outer);
    Ok(())
}

/// Statements one after the other.
#[cycle(blocks)]
fn statements(
    alloc: Global,
    found: &mut Found,
    scope: &mut Scope,
    all: &[Statement],
) -> Result<(), AllocError>
    ensures { OnOk result (Finds found.old (block_faults (scope_of scope.old) (statement_trees all.now)) found.new ×
        (scope_of scope.new ≡ scope_after_all (scope_of scope.old) (map statement_tree all.now))) }
{
    for s in all {
        one(alloc, found, scope, s)?;
    }
    Ok(())
}

/// A statement, and those in its blocks.
#[cycle(blocks)]
fn one(alloc: Global, found: &mut Found, scope: &mut Scope, s: &Statement) -> Result<(), AllocError>
    ensures { OnOk result (Finds found.old (statement_faults (scope_of scope.old) (statement_tree s.now)) found.new ×
        (scope_of scope.new ≡ spec.scope_after (scope_of scope.old) (statement_tree s.now))) }
{
    statement::statement(found, scope, s);
    inside(alloc, found, scope, s)?;
    Ok(())
}

/// The statements in the blocks of a statement.
#[cycle(blocks)]
fn inside(
    alloc: Global,
    found: &mut Found,
    scope: &mut Scope,
    s: &Statement,
) -> Result<(), AllocError>
    ensures { OnOk result (Finds found.old (inner_faults (scope_of scope.old) (statement_tree s.now)) found.new ×
        (scope_of scope.new ≡ spec.scope_after (scope_of scope.old) (statement_tree s.now))) }
{
    match s {
        Statement::Let { name, .. } => {
            scope.push(number(name))?;
            Ok(())
        }
        Statement::Push { otherwise, .. } => {
            block(alloc, found, scope, otherwise)?;
            Ok(())
        }
        Statement::When { block: first, .. } => {
            block(alloc, found, scope, first)?;
            Ok(())
        }
        Statement::Choose {
            block: first,
            otherwise,
            ..
        } => {
            block(alloc, found, scope, first)?;
            block(alloc, found, scope, otherwise)?;
            Ok(())
        }
        Statement::Take {
            queue,
            names,
            block: first,
            otherwise,
            ..
        } => {
            let locals = row_locals(alloc, scope, queue, names)?;
            with_locals(alloc, found, scope, &locals, first)?;
            block(alloc, found, scope, otherwise)?;
            Ok(())
        }
        Statement::Each {
            name,
            block: first,
            ..
        } => {
            with_locals(alloc, found, scope, &[number(name)], first)?;
            Ok(())
        }
        Statement::Set { .. } => Ok(()),
        Statement::SetSquare { .. } => Ok(()),
        Statement::Emit { .. } => Ok(()),
    }
}

/// A block in which these locals are visible, too.
#[cycle(blocks)]
fn with_locals(
    alloc: Global,
    found: &mut Found,
    scope: &mut Scope,
    locals: &[Local],
    b: &Block,
) -> Result<(), AllocError>
    ensures { OnOk result
        (Finds found.old (block_faults (spec.with_locals (scope_of scope.old) (locals_of locals.now))
        (block_tree b.now)) found.new × (scope_of scope.new ≡ scope_of scope.old)) }
{
    let outer = scope.len();
    scope.extend(locals)?;
    block(alloc, found, scope, b)?;
    scope.leave(outer);
    Ok(())
}

/// A local that is a number.
fn number(name: &Name) -> Local
    ensures { local_of result ≡ record { name = name.now; sort = Int } }
{
    Local {
        name: *name,
        sort: Sort::Int,
    }
}

//! The statements of a handler, each in its scope.

ghost use Rattle.std.specs.Prelude.{◌≡◌, ◌++◌, map, OnOk};
ghost use Rattle.layer_ast.specs.View.{block_tree, statement_tree, statement_trees};
ghost use Rattle.fault_mean.specs.NameFaults.{twice_among};
ghost use Rattle.fault_mean.specs.Scope as spec;
ghost use Rattle.file_names.specs.Blocks.{block_faults, inner_faults, statement_faults};
ghost use Rattle.file_names.specs.Found.{Finds};
ghost use Rattle.file_scope.specs.Scope.{locals_of, scope_of, scope_after_all};

use crate::found::Found;
use crate::scope::{Local, Scope, bring, declare};
use crate::{limits, uses};
use file_scope::row_locals;
use layer_ast::{Block, Statement};
use layer_words::Sort;
use std::alloc::{AllocError, Global};

/// Judges the statements of a block, whose locals are visible in it alone.
#[cycle(blocks)]
pub fn block(
    alloc: Global,
    found: &mut Found,
    scope: &mut Scope,
    b: &Block,
) -> Result<(), AllocError>
    ensures { OnOk result (Finds found.old (block_faults (scope_of scope.old) (block_tree b.now)) found.new ×
        (scope_of scope.new ≡ scope_of scope.old)) }
{
    let outer = scope.len();
    statements(alloc, found, scope, &b.statements)?;
    scope.leave(outer);
    Ok(())
}

/// Judges statements, one after the other.
#[cycle(blocks)]
fn statements(
    alloc: Global,
    found: &mut Found,
    scope: &mut Scope,
    all: &[Statement],
) -> Result<(), AllocError>
    ensures { OnOk result (Finds found.old (block_faults (scope_of scope.old) (statement_trees all.now)) found.new ×
        (scope_of scope.new ≡ scope_after_all (scope_of scope.old) (map statement_tree all.now))) }
{
    for s in all {
        statement(alloc, found, scope, s)?;
    }
    Ok(())
}

/// Judges a statement.
#[cycle(blocks)]
fn statement(
    alloc: Global,
    found: &mut Found,
    scope: &mut Scope,
    s: &Statement,
) -> Result<(), AllocError>
    ensures { OnOk result (Finds found.old (statement_faults (scope_of scope.old) (statement_tree s.now)) found.new ×
        (scope_of scope.new ≡ spec.scope_after (scope_of scope.old) (statement_tree s.now))) }
{
    uses::statement(found, scope, s);
    inside(alloc, found, scope, s)?;
    Ok(())
}

/// Judges what a statement declares, its maximum, if it has one, and the statements in its blocks.
#[cycle(blocks)]
fn inside(
    alloc: Global,
    found: &mut Found,
    scope: &mut Scope,
    s: &Statement,
) -> Result<(), AllocError>
    ensures { OnOk result (Finds found.old (inner_faults (scope_of scope.old) (statement_tree s.now)) found.new ×
        (scope_of scope.new ≡ spec.scope_after (scope_of scope.old) (statement_tree s.now))) }
{
    match s {
        Statement::Let { name, .. } => {
            bring(found, scope, *name, Sort::Int)?;
            Ok(())
        }
        Statement::Push { otherwise, .. } => {
            block(alloc, found, scope, otherwise)?;
            Ok(())
        }
        Statement::When { block: first, .. } => {
            block(alloc, found, scope, first)?;
            Ok(())
        }
        Statement::Choose {
            block: first,
            otherwise,
            ..
        } => {
            block(alloc, found, scope, first)?;
            block(alloc, found, scope, otherwise)?;
            Ok(())
        }
        Statement::Take {
            queue,
            names,
            block: first,
            otherwise,
            ..
        } => {
            let locals = row_locals(alloc, scope, queue, names)?;
            with_locals(alloc, found, scope, &locals, first)?;
            block(alloc, found, scope, otherwise)?;
            Ok(())
        }
        Statement::Each {
            name,
            most,
            block: first,
            ..
        } => {
            let outer = scope.len();
            bring(found, scope, *name, Sort::Int)?;
            limits::size(found, limits::LONGEST_LOOP, most);
            block(alloc, found, scope, first)?;
            scope.leave(outer);
            Ok(())
        }
        Statement::Set { .. } => Ok(()),
        Statement::SetSquare { .. } => Ok(()),
        Statement::Emit { .. } => Ok(()),
    }
}

/// Judges these locals, and a block in which they are visible, too.
#[cycle(blocks)]
fn with_locals(
    alloc: Global,
    found: &mut Found,
    scope: &mut Scope,
    locals: &Vec<Local>,
    b: &Block,
) -> Result<(), AllocError>
    ensures { OnOk result
        (Finds found.old (twice_among (spec.visible (scope_of scope.old))
        (map (λ l. l.name) (locals_of locals.now.items)) ++
        block_faults (spec.with_locals (scope_of scope.old) (locals_of locals.now.items)) (block_tree b.now))
        found.new × (scope_of scope.new ≡ scope_of scope.old)) }
{
    let outer = scope.len();
    declare(found, scope, locals)?;
    block(alloc, found, scope, b)?;
    scope.leave(outer);
    Ok(())
}

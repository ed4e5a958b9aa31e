//! The types of declarations.

ghost use Rattle.std.specs.Prelude.{◌++◌, flat_map, map};
ghost use Rattle.layer_ast.specs.View.{declaration_tree, expression_tree};
ghost use Rattle.fault_mean.specs.Earliest.{unless};
ghost use Rattle.fault_mean.specs.ExpressionFaults.{number_faults};
ghost use Rattle.fault_mean.specs.Faults as fault;
ghost use Rattle.fault_mean.specs.Sorts as sorts;
ghost use Rattle.file_expressions.specs.Found.{Finds};
ghost use Rattle.file_types.specs.Declarations.{declaration_faults};
ghost use Rattle.file_scope.specs.Scope.{scope_of};

use crate::statement::size;
use file_expressions::{Cause, expression, expression_at, is_initial, note_unless};
use file_scope::{Found, Scope};
use layer_ast::{Declaration, Expression};

/// An initial value.
#[tactic(auto, using(file_scope::proofs::Finds::finds_both))]
fn initial(found: &mut Found, scope: &Scope, e: &Expression)
    ensures { Finds found.old (number_faults (scope_of scope.now) (expression_tree e.now) ++
        unless (sorts.is_initial (scope_of scope.now).layer (expression_tree e.now))
        (fault.initial (sorts.expression_at (expression_tree e.now)))) found.new }
{
    expression(found, scope, e);
    let holds = is_initial(scope, e);
    note_unless(found, holds, Cause::Initial, expression_at(e));
}

/// A declaration, in the scope of its layer's own names.
#[tactic(auto, using(file_scope::proofs::Finds::finds_none))]
fn declaration(found: &mut Found, scope: &Scope, d: &Declaration)
    ensures { Finds found.old (declaration_faults (scope_of scope.now) (declaration_tree d.now)) found.new }
{
    match d {
        Declaration::Int { initial: value, .. } => match value {
            None => {}
            Some(e) => initial(found, scope, e),
        },
        Declaration::Queue { at, capacity, .. } | Declaration::Queues { at, capacity, .. } => size(
            found, scope, *at, capacity,
        ),
        _ => {}
    }
}

/// Declarations, in the scope of their layer's own names.
#[tactic(auto, using(file_scope::proofs::Finds::finds_none, file_scope::proofs::Finds::part_more))]
pub fn declarations(found: &mut Found, scope: &Scope, all: &[Declaration])
    ensures { Finds found.old (flat_map (declaration_faults (scope_of scope.now)) (map declaration_tree all.now))
        found.new }
{
    for d in all {
        declaration(found, scope, d);
    }
}

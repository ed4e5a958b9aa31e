//! The types of a statement, without those in its blocks.

ghost use Rattle.std.specs.Prelude.{◌≡◌, ◌++◌, ◌∷◌, [], length, option_map, Some};
ghost use Rattle.layer_ast.specs.Tree as tree;
ghost use Rattle.layer_ast.specs.View.{arguments_tree, expression_tree, names_tree, queue_tree, size_tree};
ghost use Rattle.layer_ast.specs.View.{statement_tree};
ghost use Rattle.layer_words.specs.declared.sorts.Shape.TheVariants.{One, Array, Square};
ghost use Rattle.fault_mean.specs.Declared.{names_in};
ghost use Rattle.fault_mean.specs.ExpressionFaults.{arguments_faults, number_faults};
ghost use Rattle.fault_mean.specs.Sorts as sorts;
ghost use Rattle.fault_mean.specs.TypeFaults as spec;
ghost use Rattle.fault_mean.specs.Uses.{arguments_in};
ghost use Rattle.file_expressions.specs.Found.{Finds};
ghost use Rattle.file_scope.specs.Scope.{scope_of};

use crate::count::Count;
use crate::emission::{Sending, emission};
use crate::rows::{row, row_arguments};
use file_expressions::{Cause, expression, note_unless, size_at};
use file_scope::{Found, Scope, declares_numbers, declares_param};
use layer_ast::{Arguments, Expression, Name, Names, Queue, Size, Statement};
use layer_words::{At, Shape};

/// A size is a number or a param; the place is that of a fault.
#[tactic(auto, using(file_scope::proofs::Finds::finds_none))]
pub fn size(found: &mut Found, scope: &Scope, at: At, s: &Size)
    ensures { Finds found.old (spec.size_type_faults (scope_of scope.now).layer at (size_tree s.now)) found.new }
{
    match s {
        Size::Number { .. } => {}
        Size::Named { name } => {
            let holds = declares_param(scope, &name.word);
            note_unless(found, holds, Cause::Kind, at);
        }
    }
}

/// An assignment without its indexes: its place in the text, the cell's name and the value.
#[derive(Clone, Copy)]
struct Assignment<'a> {
    at: &'a At,
    name: &'a Name,
    value: &'a Expression,
}

/// An assignment to a cell that is one number.
#[tactic(auto, using(crate::proofs::Assignments::of_one))]
fn set_one(found: &mut Found, scope: &Scope, set: Assignment<'_>)
    ensures { Finds found.old
        (spec.set_faults (scope_of scope.now) set.entry.at.now One set.entry.name.now
        (expression_tree set.entry.value.now ∷ [])) found.new }
{
    let holds = declares_numbers(scope, Shape::One, &set.name.word);
    note_unless(found, holds, Cause::Kind, *set.at);
    expression(found, scope, set.value);
}

/// An assignment to an element of an array.
#[tactic(auto, using(crate::proofs::Assignments::of_two))]
fn set_element(found: &mut Found, scope: &Scope, set: Assignment<'_>, index: &Expression)
    ensures { Finds found.old
        (spec.set_faults (scope_of scope.now) set.entry.at.now Array set.entry.name.now
        (expression_tree index.now ∷ expression_tree set.entry.value.now ∷ [])) found.new }
{
    let holds = declares_numbers(scope, Shape::Array, &set.name.word);
    note_unless(found, holds, Cause::Kind, *set.at);
    expression(found, scope, index);
    expression(found, scope, set.value);
}

/// An assignment to an element of a square.
#[tactic(auto, using(crate::proofs::Assignments::of_three))]
fn set_square(
    found: &mut Found,
    scope: &Scope,
    set: Assignment<'_>,
    row: &Expression,
    column: &Expression,
)
    ensures { Finds found.old
        (spec.set_faults (scope_of scope.now) set.entry.at.now Square set.entry.name.now
        (expression_tree row.now ∷ expression_tree column.now ∷ expression_tree set.entry.value.now ∷ [])) found.new }
{
    let holds = declares_numbers(scope, Shape::Square, &set.name.word);
    note_unless(found, holds, Cause::Kind, *set.at);
    expression(found, scope, row);
    expression(found, scope, column);
    expression(found, scope, set.value);
}

/// An assignment, with an index or without.
fn set(found: &mut Found, scope: &Scope, set: Assignment<'_>, index: &Option<Expression>)
    ensures { Finds found.old
        (spec.statement_type_faults (scope_of scope.now)
        (tree.set set.entry.at.now set.entry.name.now (option_map expression_tree index.now)
        (expression_tree set.entry.value.now))) found.new }
{
    match index {
        None => set_one(found, scope, set),
        Some(index) => set_element(found, scope, set, index),
    }
}

/// A push.
#[tactic(auto, using(file_scope::proofs::Finds::finds_both, crate::proofs::Counts::trees_count))]
fn push(found: &mut Found, scope: &Scope, at: At, q: &Queue, items: &Arguments)
    ensures { Finds found.old
        (spec.row_type_faults (scope_of scope.now) at (queue_tree q.now)
        (length (arguments_in (Some (arguments_tree items.now)))) ++
        arguments_faults (scope_of scope.now) (spec.row_sorts (scope_of scope.now).layer (queue_tree q.now))
        (arguments_in (Some (arguments_tree items.now)))) found.new }
{
    row(found, scope, at, q, Count::After(items.rest.len()));
    row_arguments(found, scope, q, items);
}

/// A take.
fn take(found: &mut Found, scope: &Scope, at: At, q: &Queue, names: &Names)
    ensures { Finds found.old
        (spec.row_type_faults (scope_of scope.now) at (queue_tree q.now)
        (length (names_in (Some (names_tree names.now))))) found.new }
{
    row(found, scope, at, q, Count::After(names.rest.len()));
}

/// The head of a loop.
#[tactic(auto, using(file_scope::proofs::Finds::finds_both))]
fn each(found: &mut Found, scope: &Scope, below: &Expression, most: &Size)
    ensures { Finds found.old (number_faults (scope_of scope.now) (expression_tree below.now) ++
        spec.size_type_faults (scope_of scope.now).layer (sorts.size_at (size_tree most.now)) (size_tree most.now))
        found.new }
{
    expression(found, scope, below);
    size(found, scope, size_at(most), most);
}

/// A statement, without those in its blocks.
pub fn statement(found: &mut Found, scope: &Scope, s: &Statement)
    ensures { Finds found.old (spec.statement_type_faults (scope_of scope.now) (statement_tree s.now)) found.new }
{
    match s {
        Statement::Let { value, .. } => expression(found, scope, value),
        Statement::Set {
            at,
            name,
            index,
            value,
        } => set(found, scope, Assignment { at, name, value }, index),
        Statement::SetSquare {
            at,
            name,
            row,
            column,
            value,
        } => set_square(found, scope, Assignment { at, name, value }, row, column),
        Statement::Push {
            at,
            queue,
            items,
            ..
        } => push(found, scope, *at, queue, items),
        Statement::Take {
            at,
            queue,
            names,
            ..
        } => take(found, scope, *at, queue, names),
        Statement::When { condition, .. } => expression(found, scope, condition),
        Statement::Choose { condition, .. } => expression(found, scope, condition),
        Statement::Each { below, most, .. } => each(found, scope, below, most),
        Statement::Emit {
            at,
            direction,
            kind,
            arguments,
            pushed,
        } => emission(
            found,
            scope,
            Sending {
                at: *at,
                direction: *direction,
                kind: *kind,
            },
            arguments,
            pushed,
        ),
    }
}

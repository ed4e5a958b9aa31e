//! The rows of queues.

ghost use Rattle.std.specs.Prelude.{◌≡◌, ◌∷◌, [], length, map, min, Some};
ghost use Rattle.layer_ast.specs.View.{argument_tree, arguments_tree, declaration_tree, item_tree, items_tree};
ghost use Rattle.layer_ast.specs.View.{queue_tree};
ghost use Rattle.fault_mean.specs.Declared.{items_in};
ghost use Rattle.fault_mean.specs.ExpressionFaults.{arguments_faults};
ghost use Rattle.fault_mean.specs.Forms.{items_of, queue_name, row_of};
ghost use Rattle.fault_mean.specs.TypeFaults as spec;
ghost use Rattle.fault_mean.specs.Uses.{arguments_in};
ghost use Rattle.file_expressions.specs.Found.{Finds};
ghost use Rattle.file_types.specs.Counts.{count_of};
ghost use Rattle.file_scope.specs.Scope.{scope_of};

use crate::count::{Count, is_same_count};
use file_expressions::{Cause, Wanted, argument, note_unless, queue};
use file_scope::{Found, Scope};
use layer_ast::{Argument, Arguments, Declaration, Item, Items, Queue};
use layer_words::At;

/// The number of items of the rows that a declaration declares.
#[tactic(auto, using(crate::proofs::Counts::trees_count))]
fn declared_items(d: &Declaration) -> Count
    ensures { count_of result ≡ length (items_of (declaration_tree d.now)) }
{
    match d {
        Declaration::Queue { items, .. } | Declaration::Queues { items, .. } => Count::After(
            items.rest.len(),
        ),
        _ => Count::Nothing,
    }
}

/// How many items the rows of a queue have.
fn row_items(scope: &Scope, q: &Queue) -> Count
    ensures { count_of result ≡ length (row_of (scope_of scope.now).layer (queue_name (queue_tree q.now)).word) }
{
    match scope.declaration(&q.name.word) {
        None => Count::Nothing,
        Some(d) => declared_items(d),
    }
}

/// A push or a take of `count` items.
#[tactic(auto, using(file_scope::proofs::Finds::finds_both))]
pub fn row(found: &mut Found, scope: &Scope, at: At, q: &Queue, count: Count)
    ensures { Finds found.old (spec.row_type_faults (scope_of scope.now) at (queue_tree q.now) (count_of count))
        found.new }
{
    queue(found, scope, at, q);
    let holds = is_same_count(row_items(scope, q), count);
    note_unless(found, holds, Cause::Arity, at);
}

/// The lesser of two numbers.
fn lesser(a: usize, b: usize) -> usize
    ensures { result ≡ min a b }
{
    if a < b { a } else { b }
}

/// Arguments, for each of which the sort of an item is wanted.
#[tactic(auto, using(crate::proofs::Rules::of_each_item))]
fn each_item(found: &mut Found, scope: &Scope, items: &[Item], all: &[Argument])
    ensures { Finds found.old
        (arguments_faults (scope_of scope.now) (map (λ i. i.sort ∷ []) (map item_tree items.now))
        (map argument_tree all.now)) found.new }
{
    for k in 0..lesser(items.len(), all.len()) {
        argument(found, scope, Wanted::One(items[k].sort), &all[k]);
    }
}

/// The arguments of a row.
#[tactic(auto, using(file_scope::proofs::Finds::finds_both))]
fn each_of_row(found: &mut Found, scope: &Scope, items: &Items, arguments: &Arguments)
    ensures { Finds found.old
        (arguments_faults (scope_of scope.now) (map (λ i. i.sort ∷ []) (items_in (items_tree items.now)))
        (arguments_in (Some (arguments_tree arguments.now)))) found.new }
{
    argument(
        found,
        scope,
        Wanted::One(items.first.sort),
        &arguments.first,
    );
    each_item(found, scope, &items.rest, &arguments.rest);
}

/// The arguments of a row that a declaration declares.
#[tactic(auto, using(file_scope::proofs::Finds::finds_none))]
fn declared_row(found: &mut Found, scope: &Scope, d: &Declaration, arguments: &Arguments)
    ensures { Finds found.old
        (arguments_faults (scope_of scope.now) (map (λ i. i.sort ∷ []) (items_of (declaration_tree d.now)))
        (arguments_in (Some (arguments_tree arguments.now)))) found.new }
{
    match d {
        Declaration::Queue { items, .. } | Declaration::Queues { items, .. } => each_of_row(
            found, scope, items, arguments,
        ),
        _ => {}
    }
}

/// The arguments of a push.
#[tactic(auto, using(file_scope::proofs::Finds::finds_none))]
pub fn row_arguments(found: &mut Found, scope: &Scope, q: &Queue, arguments: &Arguments)
    ensures { Finds found.old
        (arguments_faults (scope_of scope.now) (spec.row_sorts (scope_of scope.now).layer (queue_tree q.now))
        (arguments_in (Some (arguments_tree arguments.now)))) found.new }
{
    match scope.declaration(&q.name.word) {
        None => {}
        Some(d) => declared_row(found, scope, d, arguments),
    }
}

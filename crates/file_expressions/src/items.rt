//! The items of a queue's rows.

ghost use Rattle.std.specs.Prelude.{◌≡◌, find, option_map, bytes_eq};
ghost use Rattle.layer_ast.specs.View.{declaration_tree, items_tree, queue_tree};
ghost use Rattle.fault_mean.specs.Declared.{items_in};
ghost use Rattle.fault_mean.specs.ExpressionFaults as spec;
ghost use Rattle.fault_mean.specs.Forms.{items_of};
ghost use Rattle.fault_mean.specs.Kinds.{a_message, allows};
ghost use Rattle.fault_mean.specs.Sorts as sorts;
ghost use Rattle.file_scope.specs.Scope.{scope_of};

use crate::wanted::{NUMBER, Wanted, allows, must_be};
use file_scope::{Scope, is_same};
use layer_ast::{Declaration, Item, Items, Name, Queue};
use layer_words::{Sort, Word};

/// The sort of the first message of some items.
fn message_among(items: &[Item]) -> Option<Sort>
    ensures { result ≡ option_map (λ i. i.sort) (find (λ i. allows a_message i.sort) items.now) }
{
    match items.iter().find(|item| allows(Wanted::Message, item.sort)) {
        None => None,
        Some(item) => Some(item.sort),
    }
}

/// The sort of the message of a row.
#[tactic(auto, using(crate::proofs::Trees::message_tree))]
fn message_in(items: &Items) -> Option<Sort>
    ensures { result ≡ option_map (λ i. i.sort)
        (find (λ i. allows a_message i.sort) (items_in (items_tree items.now))) }
{
    if allows(Wanted::Message, items.first.sort) {
        Some(items.first.sort)
    } else {
        message_among(&items.rest)
    }
}

/// The sort of the message of the rows that a declaration declares.
fn declared_message(d: &Declaration) -> Option<Sort>
    ensures { result ≡ option_map (λ i. i.sort)
        (find (λ i. allows a_message i.sort) (items_of (declaration_tree d.now))) }
{
    match d {
        Declaration::Queue { items, .. } | Declaration::Queues { items, .. } => message_in(items),
        _ => None,
    }
}

/// The sort of the message in the rows of a queue, where they have one.
pub fn held_sort(scope: &Scope, queue: &Queue) -> Option<Sort>
    ensures { result ≡ sorts.held_sort (scope_of scope.now) (queue_tree queue.now) }
{
    match scope.declaration(&queue.name.word) {
        None => None,
        Some(d) => declared_message(d),
    }
}

/// The sort of the first of some items that has this name.
fn label_among(items: &[Item], label: &Word) -> Option<Sort>
    ensures { result ≡ option_map (λ i. i.sort) (find (λ i. bytes_eq i.name.word label.now) items.now) }
{
    match items.iter().find(|item| is_same(&item.name.word, label)) {
        None => None,
        Some(item) => Some(item.sort),
    }
}

/// The sort of an item of a row.
fn label_in(items: &Items, label: &Word) -> Option<Sort>
    ensures { result ≡ option_map (λ i. i.sort)
        (find (λ i. bytes_eq i.name.word label.now) (items_in (items_tree items.now))) }
{
    if is_same(&items.first.name.word, label) {
        Some(items.first.sort)
    } else {
        label_among(&items.rest, label)
    }
}

/// The sort of an item of the rows that a declaration declares.
fn declared_label(d: &Declaration, label: &Word) -> Option<Sort>
    ensures { result ≡ option_map (λ i. i.sort)
        (find (λ i. bytes_eq i.name.word label.now) (items_of (declaration_tree d.now))) }
{
    match d {
        Declaration::Queue { items, .. } | Declaration::Queues { items, .. } => label_in(
            items, label,
        ),
        _ => None,
    }
}

/// Whether an item of this name in the rows of a queue is a number.
pub fn reads_number(scope: &Scope, queue: &Queue, label: &Name) -> bool
    ensures { result ≡ spec.reads_number (scope_of scope.now).layer (queue_tree queue.now) label.now }
{
    match scope.declaration(&queue.name.word) {
        None => false,
        Some(d) => must_be(NUMBER, declared_label(d, &label.word)),
    }
}

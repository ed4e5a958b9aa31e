//! Names as locals.

ghost use Rattle.std.specs.Prelude.{◌≡◌, ◌++◌, [], map, OnOk, IfOk, Some, slice_index_or};
ghost use Rattle.layer_ast.specs.View.{declaration_tree, items_tree, names_tree, queue_tree};
ghost use Rattle.layer_words.specs.declared.sorts.Sort.TheVariants.{Int};
ghost use Rattle.fault_mean.specs.Declared.{items_in, names_in};
ghost use Rattle.fault_mean.specs.Forms.{items_of, queue_name, row_of};
ghost use Rattle.fault_mean.specs.Scope as spec;
ghost use Rattle.file_scope.specs.Scope.{locals_of, scope_of};

use crate::names::written;
use crate::scope::{Local, Scope};
use layer_ast::{Declaration, Items, Name, Names, Queue};
use layer_words::Sort;
use std::alloc::{AllocError, Global};

/// The sort of a place in a list; after its end are numbers.
fn sort_at(sorts: &[Sort], place: usize) -> Sort
    ensures { result ≡ slice_index_or sorts.now place Int }
{
    if place < sorts.len() {
        sorts[place]
    } else {
        Sort::Int
    }
}

/// Adds the names of a list as locals of these sorts in order; further names are numbers.
#[tactic(auto, using(crate::proofs::Sorted::first_added, crate::proofs::Sorted::next_added))]
pub fn add_sorted(locals: &mut Vec<Local>, sorts: &[Sort], names: &Names) -> Result<(), AllocError>
    ensures { OnOk result
        (locals_of locals.new.items ≡ locals_of locals.old.items ++
        spec.locals_as sorts.now (names_in (Some (names_tree names.now)))) }
{
    locals.reserve(names.rest.len() + 1)?;
    locals.push(Local {
        name: names.first,
        sort: sort_at(sorts, 0),
    })?;
    for k in 0..names.rest.len() {
        locals.push(Local {
            name: names.rest[k],
            sort: sort_at(sorts, k + 1),
        })?;
    }
    Ok(())
}

/// Names as locals of these sorts in order; further names are numbers.
#[tactic(auto, using(crate::proofs::Sorted::local_more))]
fn sorted(alloc: Global, sorts: &[Sort], names: &[Name]) -> Result<Vec<Local>, AllocError>
    ensures { IfOk result (λ all. locals_of all.items ≡ spec.locals_as sorts.now names.now) }
{
    let mut all = Vec::new(alloc);
    for name in names {
        let sort = sort_at(sorts, all.len());
        all.push(Local { name: *name, sort })?;
    }
    Ok(all)
}

/// Names as locals that are numbers.
pub fn number_locals(alloc: Global, names: &[Name]) -> Result<Vec<Local>, AllocError>
    ensures { IfOk result (λ all. locals_of all.items ≡ spec.locals_as [] names.now) }
{
    sorted(alloc, &[], names)
}

/// The names of a list as locals of these sorts.
pub fn locals_as(alloc: Global, sorts: &[Sort], names: &Names) -> Result<Vec<Local>, AllocError>
    ensures { IfOk result
        (λ all. locals_of all.items ≡ spec.locals_as sorts.now (names_in (Some (names_tree names.now)))) }
{
    let mut all = Vec::new(alloc);
    add_sorted(&mut all, sorts, names)?;
    Ok(all)
}

/// The sort of an item of a row by its place; after the last item are numbers.
#[tactic(auto, using(crate::proofs::Rules::of_item_sort))]
fn item_sort(row: &Items, place: usize) -> Sort
    ensures { result ≡ slice_index_or (map (λ i. i.sort) (items_in (items_tree row.now))) place Int }
{
    if place == 0 {
        return row.first.sort;
    }
    if place <= row.rest.len() {
        row.rest[place - 1].sort
    } else {
        Sort::Int
    }
}

/// The sort of an item by its place in the rows that a declaration declares; after the last item are numbers.
#[tactic(auto, using(crate::proofs::Sorted::number_there))]
fn row_sort(d: &Declaration, place: usize) -> Sort
    ensures { result ≡ slice_index_or (map (λ i. i.sort) (items_of (declaration_tree d.now))) place Int }
{
    match d {
        Declaration::Queue { items, .. } | Declaration::Queues { items, .. } => item_sort(
            items, place,
        ),
        _ => Sort::Int,
    }
}

/// Names as locals of the sorts of the rows that a declaration declares.
#[tactic(auto, using(crate::proofs::Sorted::local_more))]
fn row_sorted(alloc: Global, d: &Declaration, names: &[Name]) -> Result<Vec<Local>, AllocError>
    ensures { IfOk result
        (λ all. locals_of all.items ≡ spec.locals_as (map (λ i. i.sort) (items_of (declaration_tree d.now)))
        names.now) }
{
    let mut all = Vec::new(alloc);
    for name in names {
        let sort = row_sort(d, all.len());
        all.push(Local { name: *name, sort })?;
    }
    Ok(all)
}

/// The locals that a row of a queue becomes.
pub fn row_locals(
    alloc: Global,
    scope: &Scope,
    queue: &Queue,
    names: &Names,
) -> Result<Vec<Local>, AllocError>
    ensures { IfOk result
        (λ all. locals_of all.items ≡
        spec.locals_as (map (λ i. i.sort) (row_of (scope_of scope.now).layer (queue_name (queue_tree queue.now)).word))
        (names_in (Some (names_tree names.now)))) }
{
    let names = written(alloc, names)?;
    match scope.declaration(&queue.name.word) {
        None => number_locals(alloc, &names),
        Some(d) => row_sorted(alloc, d, &names),
    }
}

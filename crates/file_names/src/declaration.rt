//! The faults of declarations.

ghost use Rattle.std.specs.Prelude.{◌≡◌, ◌++◌, [], flat_map, map, OnOk, IfOk};
ghost use Rattle.layer_ast.specs.View.{declaration_tree};
ghost use Rattle.fault_mean.specs.Forms.{items_of, labels_of};
ghost use Rattle.fault_mean.specs.Limits.{capacity_in};
ghost use Rattle.fault_mean.specs.NameFaults.{declaration_uses, row_faults, size_faults, too_many_of, twice_among};
ghost use Rattle.fault_mean.specs.NameFaults.{uses_faults};
ghost use Rattle.file_names.specs.Declarations.{declaration_faults};
ghost use Rattle.file_names.specs.Found.{Finds};
ghost use Rattle.file_scope.specs.Scope.{scope_of};
ghost use Rattle.msg_core.specs.Headers.{most_fields};

use crate::found::Found;
use crate::names::{too_many, twice};
use crate::scope::Scope;
use crate::{limits, uses};
use file_scope::listed;
use layer_ast::{Declaration, Name};
use msg_core::MOST_FIELDS;
use std::alloc::{AllocError, Global};

/// Judges the names that a declaration uses.
#[tactic(auto, using(file_scope::proofs::Finds::finds_none))]
fn used(found: &mut Found, scope: &Scope, d: &Declaration)
    ensures { Finds found.old (uses_faults (scope_of scope.now) (declaration_uses (declaration_tree d.now))) found.new }
{
    match d {
        Declaration::Int { initial, .. } => uses::optional(found, scope, initial),
        Declaration::Queue { capacity, .. } | Declaration::Queues { capacity, .. } => {
            uses::size(found, scope, capacity)
        }
        _ => {}
    }
}

/// Judges the capacity of a queue.
#[tactic(auto, using(file_scope::proofs::Finds::finds_none, file_scope::proofs::Finds::finds_both))]
fn capacity(found: &mut Found, d: &Declaration)
    ensures { Finds found.old (flat_map size_faults (capacity_in (declaration_tree d.now))) found.new }
{
    match d {
        Declaration::Queue { capacity, .. } | Declaration::Queues { capacity, .. } => {
            limits::size(found, limits::LARGEST_CAPACITY, capacity)
        }
        _ => {}
    }
}

/// Judges the items of a queue's rows.
#[tactic(auto, using(file_scope::proofs::Finds::finds_none))]
fn rows(alloc: Global, found: &mut Found, d: &Declaration) -> Result<(), AllocError>
    ensures { OnOk result (Finds found.old (row_faults (items_of (declaration_tree d.now))) found.new) }
{
    match d {
        Declaration::Queue { items, .. } | Declaration::Queues { items, .. } => {
            limits::row(alloc, found, items)
        }
        _ => Ok(()),
    }
}

/// The names of a header's fields.
fn fields(alloc: Global, d: &Declaration) -> Result<Vec<Name>, AllocError>
    ensures { IfOk result (λ all. all.items ≡ labels_of (declaration_tree d.now)) }
{
    match d {
        Declaration::Header { fields, .. } => listed(alloc, fields),
        _ => Ok(Vec::new(alloc)),
    }
}

/// Judges the fields of a header: none may be there twice, and there may be `MOST_FIELDS` of them.
#[tactic(auto, using(file_scope::proofs::Finds::finds_both))]
fn few_fields(alloc: Global, found: &mut Found, d: &Declaration) -> Result<(), AllocError>
    ensures { OnOk result
        (Finds found.old (twice_among [] (labels_of (declaration_tree d.now)) ++
        too_many_of most_fields (labels_of (declaration_tree d.now))) found.new) }
{
    let fields = fields(alloc, d)?;
    twice(alloc, found, &fields)?;
    too_many(found, MOST_FIELDS, &fields);
    Ok(())
}

/// Judges a declaration, in the scope of its layer's own names.
#[tactic(auto, using(file_scope::proofs::Finds::finds_both, file_scope::proofs::Finds::finds_join))]
fn declaration(
    alloc: Global,
    found: &mut Found,
    scope: &Scope,
    d: &Declaration,
) -> Result<(), AllocError>
    ensures { OnOk result
        (Finds found.old (declaration_faults (scope_of scope.now) (declaration_tree d.now)) found.new) }
{
    used(found, scope, d);
    capacity(found, d);
    rows(alloc, found, d)?;
    few_fields(alloc, found, d)?;
    Ok(())
}

/// Judges declarations, in the scope of their layer's own names.
#[tactic(auto, using(file_scope::proofs::Finds::finds_none, file_scope::proofs::Finds::part_more))]
pub fn declarations(
    alloc: Global,
    found: &mut Found,
    scope: &Scope,
    all: &[Declaration],
) -> Result<(), AllocError>
    ensures { OnOk result
        (Finds found.old (flat_map (declaration_faults (scope_of scope.now)) (map declaration_tree all.now))
        found.new) }
{
    for d in all {
        declaration(alloc, found, scope, d)?;
    }
    Ok(())
}

//! How many rows with messages a member keeps at most.

ghost use Rattle.std.specs.Prelude.{◌≡◌, map};
ghost use Rattle.std.specs.List.{sum_by};
ghost use Rattle.stack_mean.specs.Acceptance as limits;
ghost use Rattle.stack_mean.specs.Acceptance.{held_at_most};
ghost use Rattle.typed_layer.specs.View.{layer_tree, cell_tree, form_tree, items_tree};
ghost use Rattle.typed_layer.specs.Places.{typed_tree};
ghost use Rattle.stack_judge.specs.Rows.{rows_of_cell, rows_of_layer};

use typed_layer::{Cell, Form, Items, Typed, TypedLayer};

/// The most rows with messages that a member's layers may keep.
pub const MOST_ROWS: u32 = 8_192;

/// How many rows with messages a queue of a capacity keeps at most.
fn rows_for(items: &Items, capacity: u8) -> u32
    ensures { result ≡ limits.capacity_for (items_tree items.now) capacity }
{
    match items.message {
        Some(_) => u32::from(capacity),
        None => 0,
    }
}

/// How many a cell keeps at most, at a member of a view of n.
fn of_cell(cell: &Cell, n: u8) -> u32
    ensures { result ≡ rows_of_cell n (cell_tree cell.now) }
{
    match &cell.form {
        Form::Numbers {
            shape: _,
            initial: _,
        } => 0,
        Form::Queue { capacity, items } => rows_for(items, *capacity),
        Form::Queues { capacity, items } => rows_for(items, *capacity).saturating_mul(u32::from(n)),
    }
}

/// How many a layer keeps at most, as far as 32 bits hold the number.
fn of_layer(layer: &TypedLayer, n: u8) -> u32
    ensures { result ≡ held_at_most (rows_of_layer n (layer_tree layer.now)) }
{
    let mut sum: u32 = 0;
    for cell in layer.cells.as_slice() {
        sum = sum.saturating_add(of_cell(cell, n));
    }
    sum
}

/// How many the layers of a stack keep at most, as far as 32 bits hold the number.
pub fn rows_of(stack: &Typed, n: u8) -> u32
    ensures { result ≡ held_at_most (limits.rows_of (typed_tree stack.now) n) }
{
    let mut sum: u32 = 0;
    for layer in stack.layers() {
        sum = sum.saturating_add(of_layer(layer, n));
    }
    sum
}

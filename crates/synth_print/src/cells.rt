//! Cells of layers, by name.

ghost use Rattle.std.specs.Prelude.{◌≡◌, ◌++◌, [], OnOk, slice_get, slice_index_or};
ghost use Rattle.std.specs.Option.{option_map_or};
ghost use Rattle.bypass_mean.specs.Text.{cell_name, layer_of, numbers_called};
ghost use Rattle.stack_judge.specs.Answer.{stack_tree};
ghost use Rattle.layer_mean.specs.Tree.{CellTree};
ghost use Rattle.synth_print.specs.Cells.{cell_shown, form_shown, is_single, layer_or_none};
ghost use Rattle.trace_mean.specs.Fuse.{form_at};
ghost use Rattle.typed_layer.specs.View.{items_tree};

use layer_words::Shape;
use msg_core::Memory;
use report_lines::Line;
use stack_judge::Stack;
use typed_layer::{Cell, Form, Items, TypedLayer};

/// The layer at a place, if there is one.
pub(crate) fn layer_at(stack: &Stack, place: usize) -> Option<&TypedLayer>
    ensures { layer_or_none result ≡ layer_of (stack_tree stack.now) place }
{
    if place < usize::from(stack.places()) {
        Some(stack.layer(place as u8))
    } else {
        None
    }
}

/// The cell of a number of a layer, if there is one.
fn cell_of(layer: Option<&TypedLayer>, cell: u8) -> Option<&Cell>
    ensures { cell_shown result ≡ slice_get (layer_or_none layer.entry).cells cell }
{
    match layer {
        Some(layer) => layer.cells.get(usize::from(cell)),
        None => None,
    }
}

/// The cell of a number of the layer at a place, if there is one.
fn cell_at(stack: &Stack, place: u8, cell: u8) -> Option<&Cell>
    ensures { cell_shown result ≡ slice_get (layer_of (stack_tree stack.now) place).cells cell }
{
    cell_of(layer_at(stack, usize::from(place)), cell)
}

/// The name of a cell.
fn push_name(line: &mut Line, cell: Option<&Cell>) -> Result<(), Memory>
    ensures { OnOk result (line.new ≡ line.old ++ option_map_or (λ (x : CellTree). x.name) (cell_shown cell.entry) []) }
{
    match cell {
        Some(cell) => line.text(cell.name.bytes()),
        None => Ok(()),
    }
}

/// `PLACE.NAME`
pub(crate) fn push_cell_name(
    line: &mut Line,
    stack: &Stack,
    place: u8,
    cell: u8,
) -> Result<(), Memory>
    ensures { OnOk result (line.new ≡ line.old ++ cell_name (stack_tree stack.now) place cell) }
{
    line.number(u64::from(place))?;
    line.text(b".")?;
    push_name(line, cell_at(stack, place, cell))
}

/// Whether a cell that there may be is told without an index.
fn is_without(cell: Option<&Cell>) -> bool
    ensures { result ≡ is_single (form_shown (cell_shown cell.entry)) }
{
    let Some(cell) = cell else { return false };
    match &cell.form {
        Form::Numbers { shape, initial: _ } => matches!(shape, Shape::One),
        Form::Queue {
            capacity: _,
            items: _,
        } => true,
        Form::Queues {
            capacity: _,
            items: _,
        } => false,
    }
}

/// Whether a cell of the layer at a place is told without an index.
pub(crate) fn is_alone(stack: &Stack, place: u8, cell: u8) -> bool
    ensures { result ≡ is_single (form_at (layer_of (stack_tree stack.now) place) cell) }
{
    is_without(cell_at(stack, place, cell))
}

/// What a number of a queue's rows is called.
fn push_word(line: &mut Line, items: &Items, number: u8) -> Result<(), Memory>
    ensures { OnOk result (line.new ≡ line.old ++ slice_index_or (items_tree items.now).numbers number []) }
{
    match items.numbers.get(usize::from(number)) {
        Some(word) => line.text(word.bytes()),
        None => Ok(()),
    }
}

/// What a number of the rows of a cell is called, if there is such a cell.
fn push_number_of(line: &mut Line, cell: Option<&Cell>, number: u8) -> Result<(), Memory>
    ensures { OnOk result
        (line.new ≡ line.old ++ slice_index_or (numbers_called (form_shown (cell_shown cell.entry))) number []) }
{
    let Some(cell) = cell else { return Ok(()) };
    match &cell.form {
        Form::Numbers {
            shape: _,
            initial: _,
        } => Ok(()),
        Form::Queue { capacity: _, items } => push_word(line, items, number),
        Form::Queues { capacity: _, items } => push_word(line, items, number),
    }
}

/// What a number of the rows of a cell of the layer at a place is called.
pub(crate) fn push_called(
    line: &mut Line,
    stack: &Stack,
    place: u8,
    cell: u8,
    number: u8,
) -> Result<(), Memory>
    ensures { OnOk result (line.new ≡ line.old
        ++ slice_index_or (numbers_called (form_at (layer_of (stack_tree stack.now) place) cell)) number []) }
{
    push_number_of(line, cell_at(stack, place, cell), number)
}

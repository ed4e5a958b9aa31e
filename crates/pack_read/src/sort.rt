//! What cells are.

ghost use Rattle.std.specs.Prelude.{◌≡◌, option_map};
ghost use Rattle.bypass_mean.specs.Text.{layer_of};
ghost use Rattle.stack_judge.specs.Answer.{stack_tree};
ghost use Rattle.trace_mean.specs.Fuse.{form_at};
ghost use Rattle.typed_layer.specs.View.{form_tree};
ghost use Rattle.pack_read.specs.Sorts.{sort_of};

use layer_words::Shape;
use pack_words::{Spot, cell_at};
use stack_judge::Stack;
use typed_layer::Form;

/// What a cell is.
#[derive(Clone, Copy)]
pub(crate) enum Sort {
    Number,
    Array,
    Square,
    Queue,
    Queues,
}

/// A cell that is named: where it is, and what it is, if it is there.
#[derive(Clone, Copy)]
pub(crate) struct CellNamed {
    pub spot: Spot,
    pub sort: Option<Sort>,
}

/// What a form makes of a cell.
fn sort_in(form: &Form) -> Sort
    ensures { result ≡ sort_of (form_tree form.now) }
{
    match form {
        Form::Numbers { shape, initial: _ } => match shape {
            Shape::One => Sort::Number,
            Shape::Array => Sort::Array,
            Shape::Square => Sort::Square,
        },
        Form::Queue {
            capacity: _,
            items: _,
        } => Sort::Queue,
        Form::Queues {
            capacity: _,
            items: _,
        } => Sort::Queues,
    }
}

/// What a cell is, if it is there.
pub(crate) fn sort_at(stack: &Stack, spot: Spot) -> Option<Sort>
    ensures { result ≡ option_map sort_of (form_at (layer_of (stack_tree stack.now) spot.place) spot.cell) }
{
    match cell_at(stack, spot) {
        Some(cell) => Some(sort_in(&cell.form)),
        None => None,
    }
}

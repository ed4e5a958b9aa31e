//! The decisions of entries.

ghost use Rattle.std.specs.Prelude.{◌≡◌, option_map, slice_get};
ghost use Rattle.stack_judge.specs.Answer.{stack_tree};
ghost use Rattle.layer_ast.specs.View.{file_tree};
ghost use Rattle.miss_mean.specs.Text.{drawn_spots};
ghost use Rattle.shape_core.specs.Cases.{case_trees, drawn_tree};
ghost use Rattle.stack_shapes.specs.Entries.{shapes_at};
ghost use Rattle.miss_explain.specs.Kept.{drawn_in, kept_spots};
ghost use Rattle.miss_explain.specs.Spot.{spot_tree};

use crate::spot::{Spot, find_spot};
use crate::texts::Texts;
use layer_mean::Case;
use shape_core::{Absent, CaseShapes, Shape};
use stack_shapes::EntryOf;

/// The shape in a case.
fn drawn_in(shapes: &CaseShapes, case: Case) -> &Result<Shape, Absent>
    ensures { drawn_tree result.now ≡ drawn_in case (case_trees shapes.now) }
{
    match case {
        Case::First => &shapes.first,
        Case::Second => &shapes.second,
    }
}

/// Where the decision of a number stands among those of a shape, if there is one.
fn drawn_spot(
    texts: Texts<'_>,
    case: Case,
    drawn: &Result<Shape, Absent>,
    number: u32,
) -> Option<Spot>
    ensures { option_map spot_tree result
        ≡ slice_get (drawn_spots case (file_tree texts.entry.file.now) (stack_tree texts.entry.stack.now)
        (drawn_tree drawn.now)) number }
{
    match drawn {
        Ok(shape) => find_spot(case, texts.file, texts.stack.stack(), shape, number),
        Err(_) => None,
    }
}

/// Where the decision of a number stands among those of an entry in a case, if its shape is kept.
pub(crate) fn kept_spot(texts: Texts<'_>, case: Case, entry: EntryOf, number: u32) -> Option<Spot>
    ensures { option_map spot_tree result
        ≡ slice_get (kept_spots case (file_tree texts.entry.file.now) (stack_tree texts.entry.stack.now)
        (shapes_at texts.entry.entries.now entry)) number }
{
    match texts.entries.at(entry) {
        Some(shapes) => drawn_spot(texts, case, drawn_in(shapes, case), number),
        None => None,
    }
}

//! The handlers that visits meet: by their numbers in the stack, and as a file writes them.

ghost use Rattle.std.specs.Prelude.{◌≡◌, bytes_eq, find, map, option_map};
ghost use Rattle.std.specs.List.{position};
ghost use Rattle.stack_judge.specs.Answer.{stack_tree};
ghost use Rattle.fault_mean.specs.Places as places;
ghost use Rattle.layer_ast.specs.View as written;
ghost use Rattle.layer_mean.specs.Visit as mean;
ghost use Rattle.miss_mean.specs.Spots as spots;
ghost use Rattle.shape_core.specs.Sketch.{visit_tree};
ghost use Rattle.typed_layer.specs.View.{handler_tree};

use file_scope::is_same;
use layer_ast::{File, Handler, Layer, Place};
use layer_words::{Dir, Kind, Word};
use shape_core::ShapeVisit;
use stack_judge::Stack;

/// The tag that is popped from an event with this first tag; going down, none is popped.
fn popped_tag(dir: Dir, tag: u8) -> u8
    ensures { result ≡ spots.popped_tag dir tag }
{
    match dir {
        Dir::Up => tag,
        Dir::Down => 0,
    }
}

/// Whether a handler is for this direction, kind and popped tag.
fn is_for(handler: &typed_layer::Handler, dir: Dir, kind: Kind, tag: u8) -> bool
    ensures { result ≡ mean.is_for dir kind tag (handler_tree handler.now) }
{
    handler.direction == dir && handler.kind == kind && handler.tag == tag
}

/// The number of the first handler among some that is for them.
fn number_among(handlers: &[typed_layer::Handler], dir: Dir, kind: Kind, tag: u8) -> Option<usize>
    ensures { result ≡ position (λ h. mean.is_for dir kind tag (handler_tree h)) handlers.now }
{
    handlers.iter().position(|h| is_for(h, dir, kind, tag))
}

/// The number of the handler that a visit meets, among those of its layer.
#[tactic(auto, using(crate::proofs::Numbers::position_map, crate::proofs::Numbers::no_number))]
pub(crate) fn handler_number(stack: &Stack, visit: ShapeVisit) -> Option<usize>
    ensures { result ≡ spots.handler_number (stack_tree stack.now) (visit_tree visit) }
{
    if visit.place >= stack.places() {
        return None;
    }
    let handlers = stack.layer(visit.place).handlers.slice();
    number_among(
        handlers,
        visit.dir,
        visit.kind,
        popped_tag(visit.dir, visit.tag),
    )
}

/// The layer of a list that has this name.
fn named<'a>(layers: &'a [Layer], word: &Word) -> Option<&'a Layer>
    ensures { option_map (λ l. l.now) result ≡ find (λ l. bytes_eq l.name.word word.now) layers.now }
{
    layers.iter().find(|l| is_same(&l.name.word, word))
}

/// The layer of a list that has this name, as the definitions find it.
#[tactic(auto, using(crate::proofs::Layers::among))]
fn layer_among<'a>(layers: &'a [Layer], word: &Word) -> Option<&'a Layer>
    ensures { option_map (λ l. written.layer_tree l.now) result ≡ places.layer_among (map written.layer_tree layers.now)
        word.now }
{
    named(layers, word)
}

/// The layer that a place names: one of the file, or else one of the library.
fn layer_at<'a>(file: &'a File, place: &Place) -> Option<&'a Layer>
    ensures { option_map (λ l. written.layer_tree l.now) result ≡
        places.layer_at (written.file_tree file.now) (written.place_tree place.now) }
{
    match layer_among(&file.layers, &place.name.word) {
        Some(layer) => Some(layer),
        None => layer_among(&file.library, &place.name.word),
    }
}

/// The layer at a place of the stack, counted from 0.
fn layer_at_place(file: &File, place: u8) -> Option<&Layer>
    ensures { option_map (λ l. written.layer_tree l.now) result ≡
        spots.layer_at_place (written.file_tree file.now) place }
{
    match file.places.get(usize::from(place)) {
        Some(place) => layer_at(file, place),
        None => None,
    }
}

/// The handler of a file's layer that has this number.
pub(crate) fn handler_at(file: &File, place: u8, number: usize) -> Option<&Handler>
    ensures { option_map (λ h. written.handler_tree h.now) result ≡ spots.handler_at (written.file_tree file.now) place
        number }
{
    match layer_at_place(file, place) {
        Some(layer) => layer.handlers.get(number),
        None => None,
    }
}

//! The stack of a file.

ghost use Rattle.std.specs.Prelude.{◌≡◌, ◌≤◌, ◌<◌, bytes_eq, find, length, map, option_copied, option_map, IfOk};
ghost use Rattle.std.specs.Rc.{rc_value};
ghost use Rattle.layer_ast.specs.View as written;
ghost use Rattle.layer_ast.specs.View.{file_tree, place_tree};
ghost use Rattle.fault_mean.specs.Places as places;
ghost use Rattle.file_mean.specs.Stack as spec;
ghost use Rattle.typed_layer.specs.Places.{rc_tree, typed_tree};
ghost use Rattle.file_laws.specs.Bounds.{HoldsFile, HoldsPlaced, placed_at};
ghost use Rattle.msg_core.specs.Headers.{most_places};

use crate::layer::layer;
use file_scope::is_same;
use layer_ast::{File, Layer, Place};
use layer_words::Word;
use std::alloc::{AllocError, Global};
use std::rc::Rc;
use typed_layer::{Blank, Typed, TypedLayer};

/// The layer of a name among some.
fn named<'a>(layers: &'a [Layer], word: &Word) -> Option<&'a Layer>
    ensures { option_map (λ l. l.now) result ≡ find (λ l. bytes_eq l.name.word word.now) layers.now }
{
    layers.iter().find(|l| is_same(&l.name.word, word))
}

/// The layer that a place names: one of the file, or else one of the library.
fn layer_at<'a>(file: &'a File, place: &Place) -> Option<&'a Layer>
    ensures { option_map (λ l. written.layer_tree l.now) result ≡
        places.layer_at (file_tree file.now) (place_tree place.now) }
{
    match named(&file.layers, &place.name.word) {
        Some(layer) => Some(layer),
        None => named(&file.library, &place.name.word),
    }
}

/// The layer at a place of a file, which has this number.
fn placed_layer(
    alloc: Global,
    file: &File,
    number: usize,
    place: &Place,
) -> Result<Rc<TypedLayer>, AllocError>
    requires within { number < length (file_tree file.now).places }
    requires few { length (file_tree file.now).places ≤ most_places }
    requires holds { HoldsPlaced (placed_at (file_tree file.now) number (place_tree place.now)) }
    ensures { IfOk result (λ x. rc_tree x ≡ spec.placed_layer (file_tree file.now) number (place_tree place.now)) }
{
    let above = number + 1;
    let blank = Blank {
        first: above as u8,
        count: (file.places.len() - above) as u8,
    };
    match layer_at(file, place) {
        None => unreachable!(),
        Some(named) => Ok(Rc::new(alloc, layer(alloc, named, &place.given, blank)?)?),
    }
}

/// The layers at the places of a file, lowest first.
fn placed_layers(alloc: Global, file: &File) -> Result<Vec<Rc<TypedLayer>>, AllocError>
    requires { HoldsFile (file_tree file.now) }
    ensures { IfOk result (λ layers. map rc_tree layers.items ≡ spec.stack_of (file_tree file.now)) }
{
    let mut layers = Vec::new(alloc);
    for place in &file.places {
        let number = layers.len();
        layers.push(placed_layer(alloc, file, number, place)?)?;
    }
    Ok(layers)
}

/// The layers at the places of a file that is known to be without faults, as members run them. Err only where memory
/// runs out.
pub fn numbered(alloc: Global, file: &File) -> Result<Typed, AllocError>
    requires { HoldsFile (file_tree file.now) }
    ensures { IfOk result (λ typed. typed_tree typed ≡ spec.stack_of (file_tree file.now)) }
{
    let layers = placed_layers(alloc, file)?;
    Ok(Typed::of(layers))
}

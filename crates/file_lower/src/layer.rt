//! Layers at their places.

ghost use Rattle.std.specs.Prelude.{◌≡◌, ◌≤◌, All, length, map, vec_len, IfOk};
ghost use Rattle.layer_ast.specs.View as written;
ghost use Rattle.file_mean.specs.Layers as spec;
ghost use Rattle.typed_layer.specs.View.{layer_tree};
ghost use Rattle.file_laws.specs.Bounds.{HoldsLayer};
ghost use Rattle.file_slots.specs.Place.{placed_of};
ghost use Rattle.file_slots.specs.Placed.{placement, words_of};

use crate::cell::{cells, headers};
use crate::handler::handlers;
use file_scope::{Words, declared_name};
use file_slots::PlacedLayer;
use layer_ast::{Declaration, Given, Layer};
use std::alloc::{AllocError, Global};
use typed_layer::{Blank, Handler, Handlers, TypedLayer};

/// The words that declarations declare, in order.
fn own_words(alloc: Global, declarations: &[Declaration]) -> Result<Words, AllocError>
    ensures { IfOk result (λ words. words ≡ words_of (map written.declaration_tree declarations.now)) }
{
    let mut words = Words::new(alloc);
    for declaration in declarations {
        words.push(&declared_name(declaration).word)?;
    }
    Ok(words)
}

/// The layer that a layer of a file means at its place.
#[tactic(auto, unfolding(file_mean::specs::Layers::layer_of))]
fn layer_of(alloc: Global, place: &PlacedLayer, layer: &Layer) -> Result<TypedLayer, AllocError>
    requires layer { (placed_of place.now).layer ≡ written.layer_tree layer.now }
    requires holds { HoldsLayer (placed_of place.now) }
    ensures { IfOk result (λ x. layer_tree x ≡ spec.layer_of (placed_of place.now)) }
{
    let cells = cells(alloc, place, &layer.declarations)?;
    let headers = headers(alloc, place, &layer.declarations)?;
    let handlers = handlers(alloc, place, &layer.handlers)?;
    Ok(TypedLayer {
        name: layer.name.word,
        cells,
        headers,
        handlers: Handlers::of(alloc, handlers)?,
    })
}

/// The layer that a layer of a file means at a place that gives these params and has these places above.
pub fn layer(
    alloc: Global,
    layer: &Layer,
    given: &[Given],
    blank: Blank,
) -> Result<TypedLayer, AllocError>
    requires { HoldsLayer (placement (written.layer_tree layer.now) given.now blank) }
    ensures { IfOk result
        (λ x. layer_tree x ≡ spec.layer_of (placement (written.layer_tree layer.now) given.now blank)) }
{
    let own = own_words(alloc, &layer.declarations)?;
    let place = PlacedLayer::of(alloc, layer, &own, given, blank)?;
    layer_of(alloc, &place, layer)
}

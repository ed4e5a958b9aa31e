//! Events that a layer lets pass.

ghost use Rattle.std.specs.Prelude.{◌≡◌, List};
ghost use Rattle.slot_pool.specs.Held.{Held};
ghost use Rattle.layer_words.specs.declared.events.Dir.TheVariants.{Up};
ghost use Rattle.layer_mean.specs.Visit as spec;
ghost use Rattle.layer_stage.specs.Passes.{is_passed};
ghost use Rattle.pool_message.specs.Seen.{seen_if, event_seen};
ghost use Rattle.typed_layer.specs.View.{layer_tree};

use layer_words::Dir;
use msg_core::{Fields, Header};
use pool_message::{MessagePlace, PoolEvent};
use typed_layer::TypedLayer;

/// Whether an event passes a layer as it is but for its header: the layer has no handler for it, and it goes down, or
/// up after the header
/// `none` or after nothing.
pub(crate) fn lets_pass(layer: &TypedLayer, direction: Dir, event: &PoolEvent) -> bool
    ensures { (p : List Held) → result ≡ is_passed (layer_tree layer.now) direction (event_seen p event.now) }
{
    tag_met(direction, &event.message) == 0
        && layer.handlers.find(direction, event.kind, 0).is_none()
}

/// The tag of the header that a layer pops off a message; 0 where it pops none.
fn tag_met(direction: Dir, message: &MessagePlace) -> u8
    ensures { (p : List Held) → result ≡ (spec.met direction (seen_if p message.now)).tag }
{
    match direction {
        Dir::Up => first_tag(message),
        Dir::Down => 0,
    }
}

/// The tag of a message's first header; 0 where it has none.
fn first_tag(message: &MessagePlace) -> u8
    ensures { (p : List Held) → result ≡ (spec.met Up (seen_if p message.now)).tag }
{
    match message.get() {
        Some(message) => match message.headers().at(0) {
            Some(header) => header.tag,
            None => 0,
        },
        None => 0,
    }
}

/// The header of a layer that has nothing to say.
pub(crate) fn none_header(place: u8) -> Header
    ensures { result ≡ spec.none_header place }
{
    Header {
        layer: place,
        tag: 0,
        fields: Fields::new(),
    }
}

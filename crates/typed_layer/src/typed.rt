//! The layers at the places of a stack.

ghost use Rattle.std.specs.Prelude.{◌≡◌, ◌≤◌, ◌+◌, All, vec_len, length, option_map};
ghost use Rattle.std.specs.Rc.{rc_value};
ghost use Rattle.typed_layer.specs.Headers.{HasFewHeaders};
ghost use Rattle.msg_core.specs.Headers.{most_places, most_tags};

use crate::tree::TypedLayer;
use std::rc::Rc;

/// The layers at the places of a stack, lowest first: 1 to 24, each with at most seven headers of its own.
#[derive(Drop)]
pub struct Typed {
    layers: Vec<Rc<TypedLayer>>,
    ghost some: { 1 ≤ vec_len layers },
    ghost few: { vec_len layers ≤ most_places },
    ghost few_headers: { All HasFewHeaders layers.items },
}

impl Typed {
    ghost use Rattle.std.specs.Prelude.{◌<◌, slice_index_or};
    ghost use Rattle.layer_mean.specs.Queue.{layer_at};
    ghost use Rattle.layer_mean.specs.Tree.{no_layer};
    ghost use Rattle.typed_layer.specs.Places.{typed_tree, IsVisited};
    ghost use Rattle.typed_layer.specs.View.{layer_tree};

    /// These layers, lowest first.
    pub fn of(layers: Vec<Rc<TypedLayer>>) -> Typed
        requires some { 1 ≤ vec_len layers }
        requires few { vec_len layers ≤ most_places }
        requires few_headers { All HasFewHeaders layers.items }
        ensures { result.layers ≡ layers }
    {
        Typed { layers }
    }

    /// How many places the stack has.
    pub fn places(&self) -> u8
        ensures is { result ≡ length (typed_tree self.now) }
        ensures some { 1 ≤ result }
        ensures few { result ≤ most_places }
    {
        self.layers.len() as u8
    }

    /// How many tags the headers of the layer at a place of the queue can have, `none` counted.
    pub fn tags_at(&self, at: u16) -> u8
        ensures is { result ≡ length (layer_at (typed_tree self.now) at).headers + 1 }
        ensures few { result ≤ most_tags }
    {
        let place = usize::from(at).saturating_sub(1);
        if place < self.layers.len() {
            self.layers[place].headers.len() as u8 + 1
        } else {
            1
        }
    }

    /// The layer at a place of the queue, if it is no edge.
    pub fn visited(&self, at: u8) -> Option<&TypedLayer>
        ensures { IsVisited (typed_tree self.now) at (option_map (λ layer. layer_tree layer.now) result) }
    {
        if at == 0 {
            return None;
        }
        let place = usize::from(at - 1);
        if place < self.layers.len() {
            Some(&self.layers[place])
        } else {
            None
        }
    }

    /// The layers, lowest first.
    pub fn layers(&self) -> &[Rc<TypedLayer>]
        ensures { result.now ≡ self.now.layers.items }
    {
        self.layers.as_slice()
    }

    /// The layer at a place, the lowest being 0.
    pub fn layer(&self, place: u8) -> &Rc<TypedLayer>
        requires { place < length (typed_tree self.now) }
        ensures { layer_tree (rc_value result.now) ≡ slice_index_or (typed_tree self.now) place no_layer }
    {
        &self.layers[usize::from(place)]
    }
}

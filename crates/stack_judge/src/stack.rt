//! Stacks that are accepted.

ghost use Rattle.std.specs.Prelude.{◌≡◌, true, is_ok};
ghost use Rattle.stack_mean.specs.Acceptance.{acceptance, largest_weight};
ghost use Rattle.typed_layer.specs.Places.{typed_tree};
ghost use Rattle.msg_core.specs.Headers.{most_places, most_fields};

use crate::rows::rows_of;
use std::rc::Rc;
use typed_layer::{Typed, TypedLayer};

/// A stack that is accepted, and its weight: how many tasks can follow from one of its entries.
#[derive(Drop)]
pub struct Stack {
    pub(crate) typed: Typed,
    pub(crate) weight: u32,
    ghost accepted: { is_ok (acceptance (typed_tree typed)) ≡ true },
    ghost heaviest: { weight ≡ largest_weight (typed_tree typed) },
}

impl Stack {
    ghost use Rattle.std.specs.Prelude.{Ok, ◌<◌, ◌≤◌, All, length, slice_index_or};
    ghost use Rattle.std.specs.Rc.{rc_value};
    ghost use Rattle.layer_mean.specs.Tree.{no_layer};
    ghost use Rattle.stack_mean.specs.Acceptance.{rows_of, held_at_most};
    ghost use Rattle.typed_layer.specs.View.{layer_tree};
    ghost use Rattle.stack_judge.specs.Answer.{stack_tree};

    /// That it is accepted.
    pub fn law_accepted(&self)
        ensures { acceptance (stack_tree self.now) ≡ Ok (stack_tree self.now) }
    {}

    /// That it has at most 24 places, and each header that its layers declare at most four numbers.
    pub fn law_within_limits(&self)
        ensures places { length (stack_tree self.now) ≤ most_places }
        ensures fields { All (λ layer. All (λ header. header.fields ≤ most_fields) layer.headers)
            (stack_tree self.now) }
    {}

    /// How many tasks follow at most from an entry, itself counted.
    pub fn weight(&self) -> u32
        ensures { result ≡ largest_weight (stack_tree self.now) }
    {
        self.weight
    }

    /// How many places it has.
    pub fn places(&self) -> u8
        ensures { result ≡ length (stack_tree self.now) }
    {
        self.typed.places()
    }

    /// The layer at a place, the lowest being 0.
    pub fn layer(&self, place: u8) -> &Rc<TypedLayer>
        requires { place < length (stack_tree self.now) }
        ensures { layer_tree (rc_value result.now) ≡ slice_index_or (stack_tree self.now) place no_layer }
    {
        self.typed.layer(place)
    }

    /// How many rows with messages a member of a view of n keeps at most, as far as 32 bits hold the number.
    pub fn rows(&self, n: u8) -> u32
        ensures { result ≡ held_at_most (rows_of (stack_tree self.now) n) }
    {
        rows_of(&self.typed, n)
    }
}

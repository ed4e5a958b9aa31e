//! What names stand for at a statement.

ghost use Rattle.std.specs.Prelude.{◌≡◌, ◌≤◌, ◌+◌, ◌-◌, drop, length, OnOk};
ghost use Rattle.file_mean.specs.Names as spec;
ghost use Rattle.file_slots.specs.Place.{placed_of};

use crate::placed_layer::PlacedLayer;
use crate::visible::Visible;
use layer_ast::Name;
use std::alloc::{AllocError, Global};

/// The names that are visible at a statement: those of a layer at its place, numbers and messages.
#[derive(Drop)]
pub struct VisibleNames<'a> {
    pub place: &'a PlacedLayer<'a>,
    pub numbers: Visible,
    pub messages: Visible,
}

/// How many numbers and messages are visible before a block.
#[derive(Clone, Copy)]
pub struct Outer {
    pub numbers: usize,
    pub messages: usize,
}

impl<'a> VisibleNames<'a> {
    ghost use Rattle.file_slots.specs.Scope.{names_of};

    /// A layer's own names alone.
    pub fn own(alloc: Global, place: &'a PlacedLayer<'a>) -> VisibleNames<'a>
        ensures { names_of result ≡ spec.own_names (placed_of place.now) }
    {
        VisibleNames {
            place,
            numbers: Visible::new(alloc),
            messages: Visible::new(alloc),
        }
    }

    /// Makes names for numbers visible.
    pub fn bring_numbers(&mut self, new: &[Name]) -> Result<(), AllocError>
        requires { (names_of self.old).taken.numbers + length new.now ≤ 256 }
        ensures { OnOk result (names_of self.new ≡ spec.with_numbers new.now (names_of self.old)) }
    {
        self.numbers.bring(new)
    }

    /// Makes names for messages visible.
    pub fn bring_messages(&mut self, new: &[Name]) -> Result<(), AllocError>
        requires { (names_of self.old).taken.messages + length new.now ≤ 256 }
        ensures { OnOk result (names_of self.new ≡ spec.with_messages new.now (names_of self.old)) }
    {
        self.messages.bring(new)
    }

    /// How many names are visible.
    pub fn outer(&self) -> Outer
        ensures numbers { result.numbers ≡ length (names_of self.now).numbers }
        ensures messages { result.messages ≡ length (names_of self.now).messages }
    {
        Outer {
            numbers: self.numbers.count(),
            messages: self.messages.count(),
        }
    }

    /// Leaves a block: the names that it declared are visible no longer, and keep their slots.
    pub fn leave(&mut self, outer: Outer)
        ensures { names_of self.new ≡
            record (names_of self.old) {
              numbers = drop (length (names_of self.old).numbers - outer.numbers) (names_of self.old).numbers;
              messages = drop (length (names_of self.old).messages - outer.messages) (names_of self.old).messages;
            } }
    {
        self.numbers.leave(outer.numbers);
        self.messages.leave(outer.messages);
    }
}

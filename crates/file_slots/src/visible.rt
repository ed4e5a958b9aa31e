//! The visible names of one sort, and the slots that they have.

ghost use Rattle.std.specs.Prelude.{◌≡◌, ◌≤◌, ◌<◌, ◌+◌, ◌-◌, ◌++◌, [], bytes_eq, drop, length, find, map, option_map};
ghost use Rattle.std.specs.Prelude.{reverse, OnOk};
ghost use Rattle.std.specs.Map.{lookup};
ghost use Rattle.file_mean.specs.Names.{in_slots};

use file_scope::is_same;
use layer_ast::Name;
use layer_words::Word;
use std::alloc::{AllocError, Global};
use std::marker::Model;

/// A visible name, and its slot.
#[derive(Clone, Copy)]
pub struct VisibleName {
    pub word: Word,
    pub slot: u8,
}

/// Visible names, the newest last, and how many slots are taken, of which there are 256 at most.
#[derive(Drop)]
pub struct Visible {
    slots: Vec<VisibleName>,
    taken: u16,
}

impl Model for Visible {
    ghost use Rattle.std.specs.Prelude.{◌≤◌};
    ghost use Rattle.file_slots.specs.Visible.{Shown, entries};

    ghost Value = { Shown };

    ghost view = { λ v. record { names = entries v.slots.items; taken = v.taken } };

    ghost invariant = { λ v. v.taken ≤ 256 };
}

/// The newest of some names that has this word.
fn newest<'a>(slots: &'a Vec<VisibleName>, word: &Word) -> Option<&'a VisibleName>
    ensures { option_map (λ s. s.now) result ≡ find (λ s. bytes_eq word.now s.word) (reverse slots.now.items) }
{
    slots.iter().rev().find(|s| is_same(word, &s.word))
}

impl Visible {
    ghost use Rattle.file_slots.specs.Visible.{Shown};

    /// No names.
    pub fn new(alloc: Global) -> Visible
        ensures { result ≡ record { names = []; taken = 0 } }
    {
        Visible {
            slots: Vec::new(alloc),
            taken: 0,
        }
    }

    /// How many slots are taken.
    pub fn taken(&self) -> u16
        ensures is { result ≡ self.now.taken }
        ensures few { result ≤ 256 }
    {
        self.taken
    }

    /// How many names are visible.
    pub fn count(&self) -> usize
        ensures { result ≡ length self.now.names }
    {
        self.slots.len()
    }

    /// The slot of a visible name.
    pub fn slot(&self, word: &Word) -> Option<u8>
        ensures { result ≡ lookup (bytes_eq word.now) self.now.names }
    {
        match newest(&self.slots, word) {
            None => None,
            Some(s) => Some(s.slot),
        }
    }

    /// Makes names visible, each in a slot of its own.
    #[tactic(auto, using(crate::proofs::Slots::slots_step, crate::proofs::Slots::no_slots))]
    pub fn bring(&mut self, new: &[Name]) -> Result<(), AllocError>
        requires { self.old.taken + length new.now ≤ 256 }
        ensures { OnOk result
            (self.new ≡ record {
              names = in_slots self.old.taken new.now ++ self.old.names;
              taken =
                  self.old.taken + length new.now;
            }) }
    {
        let first = usize::from(self.taken);
        let mut left = new.len();
        while left > 0 {
            left -= 1;
            self.slots.push(VisibleName {
                word: new[left].word,
                slot: (first + left) as u8,
            })?;
        }
        self.taken += new.len() as u16;
        Ok(())
    }

    /// Leaves a block: the first `outer` names stay visible.
    pub fn leave(&mut self, outer: usize)
        ensures { self.new ≡ record {
          names = drop (length self.old.names - outer) self.old.names;
          taken =
              self.old.taken;
        } }
    {
        self.slots.truncate(outer);
    }
}

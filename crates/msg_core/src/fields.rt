//! The numbers of a header.

ghost use Rattle.std.specs.Prelude.{◌≡◌, ℕ, ◌≤◌, ◌<◌, List, [], ◌∷◌, ◌++◌, length, slice_index, take};
ghost use Rattle.msg_core.specs.Headers.{most_fields};

use std::marker::Model;

/// The most numbers that a header carries.
pub const MOST_FIELDS: usize = 4;

/// Up to `MOST_FIELDS` numbers, kept in place, with zeros after them, so that a copy takes no memory; contracts see
/// their list.
#[derive(Clone, Copy)]
pub struct Fields {
    numbers: [u32; MOST_FIELDS],
    len: u8,
}

impl Model for Fields {
    ghost use Rattle.std.specs.Prelude.{◌≡◌, ℕ, ◌-◌, ◌≤◌, List, length, take, drop, replicate};
    ghost use Rattle.std.proofs.Common.{arith, length-take-le};
    ghost use Rattle.msg_core.specs.Headers.{most_fields};
    ghost use Rattle.msg_core.specs.Kept.{kept_fields, kept-take};

    ghost Value = { List ℕ };

    ghost view = { λ f. take f.len f.numbers };

    ghost invariant = { λ f. (f.len ≤ most_fields) × (length f.numbers ≡ most_fields) ×
        (drop f.len f.numbers ≡ replicate (most_fields - f.len) 0) };

    ghost inverse = { λ fields. record { numbers = kept_fields fields; len = length fields } };

    ghost inverse_ok = { λ f h i. record {
      numbers = kept-take f.len f.numbers (omega (arith, h.0, h.1)) h.2 i;
      len = length-take-le f.len f.numbers (omega (arith, h.0, h.1)) i;
    } };
}

impl Fields {
    /// No number.
    pub fn new() -> Fields
        ensures { result ≡ [] }
    {
        Fields {
            numbers: [0; MOST_FIELDS],
            len: 0,
        }
    }

    /// These numbers in order, of which there are at most `MOST_FIELDS`.
    pub fn of(numbers: &[u32]) -> Fields
        requires { length numbers.now ≤ most_fields }
        ensures { result ≡ numbers.now }
    {
        let mut fields = Fields::new();
        for number in numbers {
            fields.push(*number);
        }
        fields
    }

    /// Puts a number after the others, where there are fewer than `MOST_FIELDS`.
    pub fn push(&mut self, number: u32)
        requires { length self.old < most_fields }
        ensures { self.new ≡ self.old ++ number ∷ [] }
    {
        self.numbers[self.len as usize] = number;
        self.len += 1;
    }

    /// How many numbers there are.
    pub fn len(&self) -> u32
        ensures count { result ≡ length self.now }
        ensures few { result ≤ most_fields }
    {
        u32::from(self.len)
    }

    /// The number at place `k`, and 0 where there is none.
    pub fn at(&self, k: u32) -> u32
        ensures { result ≡ slice_index self.now k }
    {
        if k < u32::from(self.len) {
            self.numbers[k as usize]
        } else {
            0
        }
    }

    /// A copy of these numbers.
    pub fn copy(&self) -> Fields
        ensures { result ≡ self.now }
    {
        Fields {
            numbers: self.numbers,
            len: self.len,
        }
    }
}

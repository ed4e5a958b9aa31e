//! Words of a layer file.
ghost use Rattle.std.specs.Prelude.{◌≡◌, ◌≤◌, length};
ghost use Rattle.layer_words.specs.WordBytes.{longest_word};

use std::marker::Model;

/// The most bytes of a word.
pub const LONGEST_WORD: usize = 32;

/// A word of 1 to `LONGEST_WORD` bytes, kept in place, so that a copy takes no memory.
#[derive(Clone, Copy, PartialEq, Eq)]
pub struct Word {
    bytes: [u8; LONGEST_WORD],
    len: u8,
}

impl Model for Word {
    ghost use Rattle.std.specs.Prelude.{◌≡◌, ◌≤◌, ◌-◌, List, ℕ, length, take, drop, replicate};
    ghost use Rattle.std.proofs.Common.{arith, length-take-le};
    ghost use Rattle.layer_words.specs.WordBytes.{longest_word, padded_word, padded-take};

    ghost Value = { List ℕ };

    ghost view = { λ w. take w.len w.bytes };

    ghost invariant = { λ w. (1 ≤ w.len) × (w.len ≤ longest_word) × (length w.bytes ≡ longest_word) ×
        (drop w.len w.bytes ≡ replicate (longest_word - w.len) 0) };

    ghost inverse = { λ bytes. record { bytes = padded_word bytes; len = length bytes } };

    ghost inverse_ok = { λ w h i. record {
      bytes = padded-take w.len w.bytes (omega (arith, h.1, h.2)) h.3 i;
      len = length-take-le w.len w.bytes (omega (arith, h.1, h.2)) i;
    } };
}

impl Word {
    /// The word of these bytes, of which there are 1 to `LONGEST_WORD`.
    pub fn of(text: &[u8]) -> Word
        requires { 1 ≤ length text.now × length text.now ≤ longest_word }
        ensures { result ≡ text.now }
    {
        let mut bytes = [0u8; LONGEST_WORD];
        let front = &mut bytes[..text.len()];
        front.copy_from_slice(text);
        Word {
            bytes,
            len: text.len() as u8,
        }
    }

    /// The bytes of the word.
    pub fn bytes(&self) -> &[u8]
        ensures { result.now ≡ self.now }
    {
        &self.bytes[..self.len as usize]
    }
}

//! Bytes and their digits in hexadecimal, kept for the next time.

ghost use Rattle.std.specs.Prelude.{◌≡◌, [], OnOk, IsTrue, ◌↔◌};
ghost use Rattle.hex.specs.Hex.{encode_lower};

use msg_core::Memory;
use std::alloc::Global;
use std::marker::Model;

/// Some bytes and their digits. The same bytes are often asked for several times in a row.
#[derive(Drop)]
pub(crate) struct Digits {
    bytes: Vec<u8>,
    digits: Vec<u8>,
}

impl Model for Digits {
    ghost use Rattle.std.specs.Prelude.{◌≡◌, ℕ, List};
    ghost use Rattle.hex.specs.Hex.{encode_lower};

    ghost Value = { List ℕ };

    ghost view = { λ d. d.bytes.items };

    ghost invariant = { λ d. d.digits.items ≡ encode_lower d.bytes.items };
}

impl Digits {
    /// Those of no bytes, which take no memory.
    #[tactic(auto, using(crate::proofs::Spelled::no_digits))]
    pub(crate) fn new(alloc: Global) -> Digits
        ensures { result ≡ [] }
    {
        Digits {
            bytes: Vec::new(alloc),
            digits: Vec::new(alloc),
        }
    }

    /// Whether they are those of these bytes.
    pub(crate) fn is_of(&self, bytes: &[u8]) -> bool
        ensures { IsTrue result ↔ (self.now ≡ bytes.now) }
    {
        self.bytes.as_slice() == bytes
    }

    /// The digits of the bytes: two for each, in lower case.
    pub(crate) fn slice(&self) -> &[u8]
        ensures { result.now ≡ encode_lower self.now }
    {
        self.digits.as_slice()
    }

    /// Lets the old ones go, and becomes those of these bytes.
    #[tactic(auto, using(crate::proofs::Spelled::no_digits))]
    pub(crate) fn become_those_of(&mut self, bytes: &[u8]) -> Result<(), Memory>
        ensures { OnOk result (self.new ≡ bytes.now) }
    {
        self.bytes.clear();
        self.digits.clear();
        let count = bytes.len().checked_mul(2).ok_or(Memory)?;
        self.bytes.reserve(bytes.len())?;
        self.digits.resize(count, 0)?;
        self.bytes.extend_from_slice(bytes)?;
        match hex::encode_to_slice(bytes, self.digits.as_mut_slice()) {
            Ok(()) => Ok(()),
            Err(_) => unreachable!(),
        }
    }
}

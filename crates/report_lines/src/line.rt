//! A line of text as it is built up.

ghost use Rattle.std.specs.Prelude.{◌≡◌, ◌+◌, ◌-◌, ◌%◌, ◌<◌, ◌≤◌, ◌++◌, ◌∷◌, [], OnOk, length, take, vec_capacity};
ghost use Rattle.std.specs.Prelude.{vec_len};
ghost use Rattle.std.specs.Fmt.{decimal};
ghost use Rattle.script_mean.specs.EventText.{hex_text};

use crate::digits::Digits;
use itoa::Buffer;
use msg_core::Memory;
use std::alloc::Global;
use std::marker::Model;

/// The bytes of a line, which contracts see as a list. Its memory is kept from line to line.
#[derive(Drop)]
pub struct Line {
    bytes: Vec<u8>,
    last: Digits,
}

impl Model for Line {
    ghost use Rattle.std.specs.Prelude.{ℕ, List};

    ghost Value = { List ℕ };

    ghost view = { λ l. l.bytes.items };
}

/// The last digit of a number.
#[inline(always)]
fn digit(number: u32) -> u8
    ensures { result ≡ 48 + number % 10 }
{
    b'0' + (number % 10) as u8
}

/// Appends a number of at most four digits where there is room for them.
#[inline(always)]
fn push_short(bytes: &mut Vec<u8>, number: u32)
    requires short { number < 10000 }
    requires room { vec_len bytes.old + 4 ≤ vec_capacity bytes.old }
    ensures items { bytes.new.items ≡ bytes.old.items ++ decimal number }
    ensures len { vec_len bytes.new ≤ vec_len bytes.old + 4 }
    ensures capacity { vec_capacity bytes.new ≡ vec_capacity bytes.old }
{
    let tens = number / 10;
    let hundreds = tens / 10;
    if number < 10 {
        bytes.push_reserved(digit(number));
    } else if number < 100 {
        bytes.push_reserved(digit(tens));
        bytes.push_reserved(digit(number));
    } else if number < 1000 {
        bytes.push_reserved(digit(hundreds));
        bytes.push_reserved(digit(tens));
        bytes.push_reserved(digit(number));
    } else {
        bytes.push_reserved(digit(hundreds / 10));
        bytes.push_reserved(digit(hundreds));
        bytes.push_reserved(digit(tens));
        bytes.push_reserved(digit(number));
    }
}

impl Line {
    /// An empty line, which takes no memory yet.
    pub fn new(alloc: Global) -> Line
        ensures { result ≡ [] }
    {
        Line {
            bytes: Vec::new(alloc),
            last: Digits::new(alloc),
        }
    }

    /// Empties the line.
    pub fn clear(&mut self)
        ensures { self.new ≡ [] }
    {
        self.bytes.clear();
    }

    /// The bytes of the line so far.
    pub fn slice(&self) -> &[u8]
        ensures { result.now ≡ self.now }
    {
        self.bytes.as_slice()
    }

    /// Appends these bytes.
    pub fn text(&mut self, text: &[u8]) -> Result<(), Memory>
        ensures { OnOk result (self.new ≡ self.old ++ text.now) }
    {
        self.bytes.extend_from_slice(text)?;
        Ok(())
    }

    /// Appends a byte.
    #[inline(always)]
    pub(crate) fn byte(&mut self, byte: u8) -> Result<(), Memory>
        ensures { OnOk result (self.new ≡ self.old ++ byte ∷ []) }
    {
        self.bytes.push(byte)?;
        Ok(())
    }

    /// Takes the last byte off, if there is one.
    pub(crate) fn drop_last(&mut self)
        ensures { self.new ≡ take (length self.old - 1) self.old }
    {
        self.bytes.truncate(self.bytes.len().saturating_sub(1));
    }

    /// Appends a number in decimal.
    pub fn number(&mut self, number: u64) -> Result<(), Memory>
        ensures { OnOk result (self.new ≡ self.old ++ decimal number) }
    {
        if number < 10_000 && self.bytes.capacity() - self.bytes.len() >= 4 {
            push_short(&mut self.bytes, number as u32);
            return Ok(());
        }
        self.any_number(number)
    }

    /// Appends a number in decimal, and `)/`.
    pub(crate) fn closed_number(&mut self, number: u32) -> Result<(), Memory>
        ensures { OnOk result (self.new ≡ self.old ++ decimal number ++ 41 ∷ 47 ∷ []) }
    {
        if number < 10_000 && self.bytes.capacity() - self.bytes.len() >= 6 {
            push_short(&mut self.bytes, number);
            self.bytes.push_reserved(b')');
            self.bytes.push_reserved(b'/');
            return Ok(());
        }
        self.any_number(u64::from(number))?;
        self.text(b")/")
    }

    /// Appends a number of any size.
    #[inline(never)]
    fn any_number(&mut self, number: u64) -> Result<(), Memory>
        ensures { OnOk result (self.new ≡ self.old ++ decimal number) }
    {
        let mut buffer = Buffer::new();
        self.text(buffer.format(number).as_bytes())
    }

    /// Appends a number of 32 bits in decimal, and a space in front.
    pub fn spaced(&mut self, number: u32) -> Result<(), Memory>
        ensures { OnOk result (self.new ≡ self.old ++ 32 ∷ decimal number) }
    {
        if number < 10 {
            return self.text(&[b' ', b'0' + number as u8]);
        }
        self.text(b" ")?;
        self.number(u64::from(number))
    }

    /// Appends bytes in hexadecimal, or `-` for none.
    pub fn hex(&mut self, bytes: &[u8]) -> Result<(), Memory>
        ensures { OnOk result (self.new ≡ self.old ++ hex_text bytes.now) }
    {
        if bytes.is_empty() {
            return self.text(b"-");
        }
        if !self.last.is_of(bytes) {
            self.last.become_those_of(bytes)?;
        }
        self.bytes.extend_from_slice(self.last.slice())?;
        Ok(())
    }
}

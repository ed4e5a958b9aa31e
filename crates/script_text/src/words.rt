//! The words of a line, taken from the front.
ghost use Rattle.std.specs.Prelude.{◌≡◌};
ghost use Rattle.std.specs.Iterator.{YieldsFirstRef, item_count};
ghost use Rattle.script_mean.specs.Words.{words_of};
ghost use Rattle.script_mean.specs.Address.{peer_of};
ghost use Rattle.script_mean.specs.Form as form;
ghost use Rattle.script_text.specs.Parts.{parts_after};
ghost use Rattle.script_text.specs.Reading.{Takes, words_left};

use crate::error::LineError;
use crate::splits::{cut, cut_at, cut_near};
use crate::{address, values};
use outside::Peer;
use script_mean::Bytes;
use std::alloc::Global;

/// The words that are left of a line. An empty rest is an empty word, and no rest is none.
#[derive(Clone, Copy)]
pub(crate) struct Words<'a> {
    rest: Option<&'a [u8]>,
}

/// The number of the first word of a text, if it is one within bounds, and what stands after the word.
#[inline(never)]
fn any_number_within(low: u32, high: u32, text: &[u8]) -> (Result<u32, LineError>, Option<&[u8]>)
    ensures { Takes (form.a_number_within low high (words_of text.now)) result.0 (parts_after 32 result.1) }
{
    let (word, following) = cut_near(b' ', text);
    match values::number_within(low, high, word) {
        Some(number) => (Ok(number), following),
        None => (Err(LineError::Form), following),
    }
}

impl<'a> Words<'a> {
    /// All words of a line.
    pub(crate) fn new(line: &'a [u8]) -> Words<'a>
        ensures { words_left result ≡ words_of line.now }
    {
        Words { rest: Some(line) }
    }

    /// Takes the next word, which has to be this one.
    pub(crate) fn the_word(&mut self, wanted: &[u8]) -> Result<(), LineError>
        ensures { Takes (form.the_word wanted.now (words_left self.old)) result (words_left self.new) }
    {
        match self.next() {
            Some(word) if word == wanted => Ok(()),
            _ => Err(LineError::Form),
        }
    }

    /// Takes the next word, which has to be a number within these bounds.
    #[inline(always)]
    pub(crate) fn number_within(&mut self, low: u32, high: u32) -> Result<u32, LineError>
        ensures { Takes (form.a_number_within low high (words_left self.old)) result (words_left self.new) }
    {
        let text = self.rest.ok_or(LineError::Form)?;
        let (count, value) = values::leading_digits(text);
        let Some((word, following)) = cut_at(b' ', text, count) else {
            let (number, following) = any_number_within(low, high, text);
            self.rest = following;
            return number;
        };
        self.rest = following;
        values::valued_within(low, high, word, value).ok_or(LineError::Form)
    }

    /// Takes the next word, which has to be a number of 32 bits.
    pub(crate) fn number(&mut self) -> Result<u32, LineError>
        ensures { Takes (form.a_number (words_left self.old)) result (words_left self.new) }
    {
        self.number_within(0, u32::MAX)
    }

    /// Takes the next word, which has to spell a body, and gives the bytes that it spells.
    pub(crate) fn body(&mut self, alloc: Global) -> Result<Bytes, LineError>
        ensures { Takes (form.a_body (words_left self.old)) result (words_left self.new) }
    {
        let text = self.rest.ok_or(LineError::Form)?;
        if let Some(bytes) = values::whole_body(alloc, text)? {
            self.rest = None;
            return Ok(bytes);
        }
        let (word, following) = cut(b' ', text);
        self.rest = following;
        values::body(alloc, word)
    }

    /// Takes the next word, which has to be an address and a port.
    pub(crate) fn peer(&mut self) -> Result<Peer, LineError>
        ensures { Takes (form.one peer_of (words_left self.old)) result (words_left self.new) }
    {
        let word = self.next().ok_or(LineError::Form)?;
        address::peer_of(word).ok_or(LineError::Form)
    }

    /// Succeeds where no word is left.
    #[inline(always)]
    pub(crate) fn end(&mut self) -> Result<(), LineError>
        ensures { Takes (form.ends tt (words_left self.old)) result (words_left self.new) }
    {
        match self.rest {
            Some(_text) => Err(LineError::Form),
            None => Ok(()),
        }
    }
}

impl<'a> Iterator for Words<'a> {
    type Item = &'a [u8];

    ghost next_gives = { YieldsFirstRef words_left };

    ghost remaining = { item_count words_left };

    fn next(&mut self) -> Option<&'a [u8]> {
        let (word, following) = cut_near(b' ', self.rest?);
        self.rest = following;
        Some(word)
    }
}

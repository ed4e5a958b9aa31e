//! The lines of a text, and the words on a line.
ghost use Rattle.std.specs.Prelude.{◌≡◌, ◌==◌, drop};
ghost use Rattle.std.specs.List.{slice_split};
ghost use Rattle.std.specs.Iterator.{YieldsFirstRef, item_count};
ghost use Rattle.script_mean.specs.Words.{words_of};
ghost use Rattle.script_mean.specs.Form as form;
ghost use Rattle.audit_mean.specs.Line as audit;
ghost use Rattle.audit_mean.specs.Text.{lines_of, unended};
ghost use Rattle.chart_mean.specs.Says as spec;
ghost use Rattle.chart_draw.specs.Reading.{Takes, TakesWord, pieces_left};

use crate::kinds::is_kind;
use msg_core::LAST_MEMBER;
use script_text::{cut, number_within};

/// What is left of a text, which is cut at a byte. An empty rest is one empty piece, and no rest is no piece.
#[derive(Clone, Copy)]
pub(crate) struct Pieces<'a> {
    at: u8,
    rest: Option<&'a [u8]>,
}

impl<'a> Pieces<'a> {
    /// The lines of a text, the last of which may lack its line feed; a text of no bytes has none.
    pub(crate) fn lines(text: &'a [u8]) -> Pieces<'a>
        ensures { pieces_left result ≡ lines_of text.now }
    {
        if text.is_empty() {
            return Pieces {
                at: b'\n',
                rest: None,
            };
        }
        Pieces {
            at: b'\n',
            rest: Some(unended(text)),
        }
    }

    /// The words of a line, with one space between; an empty line is one empty word.
    pub(crate) fn words(line: &'a [u8]) -> Pieces<'a>
        ensures { pieces_left result ≡ words_of line.now }
    {
        Pieces {
            at: b' ',
            rest: Some(line),
        }
    }

    /// The parts of a header: its layer's name, which a dot ends, and what stands after it.
    pub(crate) fn dotted(header: &'a [u8]) -> Pieces<'a>
        ensures { pieces_left result ≡ slice_split (λ byte. byte == 46) header.now }
    {
        Pieces {
            at: b'.',
            rest: Some(header),
        }
    }

    /// The parts of a header after its layer's name, which a dot ends.
    pub(crate) fn after_layer(header: &'a [u8]) -> Pieces<'a>
        ensures { pieces_left result ≡ drop 1 (slice_split (λ byte. byte == 46) header.now) }
    {
        let (_layer, rest) = cut(b'.', header);
        Pieces { at: b'.', rest }
    }

    /// The headers of a packet.
    pub(crate) fn headers(chain: &'a [u8]) -> Pieces<'a>
        ensures { pieces_left result ≡ slice_split (λ byte. byte == 47) chain.now }
    {
        Pieces {
            at: b'/',
            rest: Some(chain),
        }
    }

    /// The next word, as a member.
    pub(crate) fn member(&mut self) -> Option<u8>
        ensures { Takes (audit.a_member (pieces_left self.old)) result (pieces_left self.new) }
    {
        let word = self.next()?;
        let member = number_within(0, u32::from(LAST_MEMBER), word)?;
        Some(member as u8)
    }

    /// The next word, as a number.
    pub(crate) fn number(&mut self) -> Option<u32>
        ensures { Takes (form.a_number (pieces_left self.old)) result (pieces_left self.new) }
    {
        let word = self.next()?;
        number_within(0, u32::MAX, word)
    }

    /// The next word, whatever it is.
    pub(crate) fn word(&mut self) -> Option<&'a [u8]>
        ensures { TakesWord (form.a_word (pieces_left self.old)) result (pieces_left self.new) }
    {
        self.next()
    }

    /// The next word, as the kind of a delivery.
    pub(crate) fn kind(&mut self) -> Option<&'a [u8]>
        ensures { TakesWord (spec.a_word_of spec.kinds (pieces_left self.old)) result (pieces_left self.new) }
    {
        let word = self.next()?;
        if is_kind(word) { Some(word) } else { None }
    }

    /// The next word, which isn't taken, or an empty one.
    pub(crate) fn first(&self) -> &'a [u8]
        ensures { result.now ≡ spec.first_word (pieces_left self.now) }
    {
        let mut words = *self;
        match words.next() {
            Some(word) => word,
            None => b"",
        }
    }

    /// Whether no word is left: None where there is one.
    pub(crate) fn end(&mut self) -> Option<()>
        ensures { Takes (form.ends tt (pieces_left self.old)) result (pieces_left self.new) }
    {
        match self.next() {
            Some(_) => None,
            None => Some(()),
        }
    }
}

impl<'a> Iterator for Pieces<'a> {
    type Item = &'a [u8];

    ghost next_gives = { YieldsFirstRef pieces_left };

    ghost remaining = { item_count pieces_left };

    fn next(&mut self) -> Option<&'a [u8]> {
        let (piece, following) = cut(self.at, self.rest?);
        self.rest = following;
        Some(piece)
    }
}

/// The text without its last byte, if that is a line feed.
fn unended(text: &[u8]) -> &[u8]
    ensures { result.now ≡ unended text.now }
{
    match text {
        [front @ .., b'\n'] => front,
        _ => text,
    }
}

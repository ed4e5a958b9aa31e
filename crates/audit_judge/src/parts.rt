//! The lines of a text, and the words on a line.
ghost use Rattle.std.specs.Prelude.{◌≡◌, ◌≤◌, length, IfSome};
ghost use Rattle.std.specs.Iterator.{YieldsFirstRef, item_count};
ghost use Rattle.script_mean.specs.Words.{words_of};
ghost use Rattle.script_mean.specs.Form as form;
ghost use Rattle.audit_mean.specs.Line as spec;
ghost use Rattle.audit_mean.specs.Text.{lines_of, unended};
ghost use Rattle.audit_judge.specs.Reading.{Takes, TakesWord, parts_left};

use crate::values;
use script_text::cut;

/// What is left of a text, which is cut at a byte. An empty rest is an empty part, and no rest is none.
#[derive(Clone, Copy)]
pub(crate) struct Parts<'a> {
    at: u8,
    rest: Option<&'a [u8]>,
}

impl<'a> Parts<'a> {
    /// All lines of a text; the last may lack its line feed.
    pub(crate) fn lines(text: &'a [u8]) -> Parts<'a>
        ensures { parts_left result ≡ lines_of text.now }
    {
        if text.is_empty() {
            return Parts {
                at: b'\n',
                rest: None,
            };
        }
        Parts {
            at: b'\n',
            rest: Some(unended(text)),
        }
    }

    /// All words of a line, with a space between.
    pub(crate) fn words(line: &'a [u8]) -> Parts<'a>
        ensures { parts_left result ≡ words_of line.now }
    {
        Parts {
            at: b' ',
            rest: Some(line),
        }
    }

    /// A number from 0 to the highest.
    pub(crate) fn number(&mut self, high: u64) -> Option<u64>
        ensures taken { Takes (form.a_number_within 0 high (parts_left self.old)) result (parts_left self.new) }
        ensures bound { IfSome result (λ number. number ≤ high) }
    {
        let word = self.next()?;
        values::number_within(high, word)
    }

    /// The next word, if it spells a body; it is given as it is spelled.
    #[tactic(auto, using(crate::proofs::Bodies::there, crate::proofs::Bodies::absent))]
    pub(crate) fn body(&mut self) -> Option<&'a [u8]>
        ensures { TakesWord (spec.a_spelled_body (parts_left self.old)) result (parts_left self.new) }
    {
        let word = self.next()?;
        if values::spells_body(word) {
            Some(word)
        } else {
            None
        }
    }

    /// Succeeds where no part is left.
    pub(crate) fn end(&mut self) -> Option<()>
        ensures { Takes (form.ends tt (parts_left self.old)) result (parts_left self.new) }
    {
        match self.next() {
            Some(_) => None,
            None => Some(()),
        }
    }
}

impl<'a> Iterator for Parts<'a> {
    type Item = &'a [u8];

    ghost next_gives = { YieldsFirstRef parts_left };

    ghost remaining = { item_count parts_left };

    fn next(&mut self) -> Option<&'a [u8]> {
        let (part, following) = cut(self.at, self.rest?);
        self.rest = following;
        Some(part)
    }
}

/// The text without its last byte, if that is a line feed.
fn unended(text: &[u8]) -> &[u8]
    ensures { result.now ≡ unended text.now }
{
    match text {
        [front @ .., b'\n'] => front,
        _ => text,
    }
}

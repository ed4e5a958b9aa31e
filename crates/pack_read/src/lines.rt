//! The lines of a text.

ghost use Rattle.std.specs.Prelude.{◌≡◌};
ghost use Rattle.std.specs.Iterator.{YieldsFirstRef, item_count};
ghost use Rattle.audit_mean.specs.Text as audit;
ghost use Rattle.pack_read.specs.Lines.{lines_left};

use script_text::cut;

/// The lines that are left of a text. An empty rest is an empty line, and no rest is none.
#[derive(Clone, Copy)]
pub(crate) struct Lines<'a> {
    rest: Option<&'a [u8]>,
}

impl<'a> Lines<'a> {
    /// Those of a whole text.
    pub(crate) fn of(text: &'a [u8]) -> Lines<'a>
        ensures { lines_left result ≡ audit.lines_of text.now }
    {
        if text.is_empty() {
            return Lines { rest: None };
        }
        Lines {
            rest: Some(unended(text)),
        }
    }
}

impl<'a> Iterator for Lines<'a> {
    type Item = &'a [u8];

    ghost next_gives = { YieldsFirstRef lines_left };

    ghost remaining = { item_count lines_left };

    fn next(&mut self) -> Option<&'a [u8]> {
        let (line, after) = cut(b'\n', self.rest?);
        self.rest = after;
        Some(line)
    }
}

/// A text without its last byte, if that is a line feed.
fn unended(text: &[u8]) -> &[u8]
    ensures { result.now ≡ audit.unended text.now }
{
    match text {
        [front @ .., b'\n'] => front,
        _ => text,
    }
}

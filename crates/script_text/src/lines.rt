//! The lines of a text that say something.
ghost use Rattle.std.specs.Prelude.{◌≡◌, ◌+◌, ◌<◌, ◌≤◌, ◌^◌, ◌==◌, not, length, count_by};
ghost use Rattle.std.specs.List.{after_last};
ghost use Rattle.script_mean.specs.Lines as spec;
ghost use Rattle.script_text.specs.Parts.{parts_after};

use crate::reading::MOST_LINES;
use crate::splits::cut_before;

/// How many bytes are counted at once.
const BLOCK: usize = 192;

/// A line, and its number, from 1.
#[derive(Clone, Copy)]
pub(crate) struct NumberedLine<'a> {
    pub number: u32,
    pub text: &'a [u8],
}

/// The lines that are left of a text, the first of them with this number. No rest is no line; an
/// empty rest, as after a last line feed, is taken for a line, which says nothing.
#[derive(Drop)]
pub(crate) struct Lines<'a> {
    rest: Option<&'a [u8]>,
    number: u32,
    ghost counted: { number + length (parts_after 10 rest) < 2 ^ 32 },
}

impl<'a> Lines<'a> {
    ghost use Rattle.std.specs.Iterator.{YieldsFirstBy};
    ghost use Rattle.script_text.specs.Reading.{all_left, lines_left, numbered_line};

    /// All lines of a text, counted from 1.
    pub(crate) fn of(text: &'a [u8]) -> Lines<'a>
        requires { spec.line_count text.now ≤ MOST_LINES }
        ensures { lines_left result ≡ spec.said_lines text.now }
    {
        Lines {
            rest: Some(text),
            number: 1,
        }
    }

    fn next_line(&mut self) -> Option<NumberedLine<'a>>
        ensures { YieldsFirstBy numbered_line all_left self.old result self.new }
    {
        let (text, following) = cut_before(b'\n', self.rest?);
        let number = self.number;
        *self = Lines {
            rest: following,
            number: number + 1,
        };
        Some(NumberedLine { number, text })
    }
}

impl<'a> Iterator for Lines<'a> {
    ghost use Rattle.std.specs.Iterator.{YieldsFirstBy, item_count};
    ghost use Rattle.script_text.specs.Reading.{lines_left, numbered_line};

    type Item = NumberedLine<'a>;

    ghost next_gives = { YieldsFirstBy numbered_line lines_left };

    ghost remaining = { item_count lines_left };

    /// The next line that says something.
    fn next(&mut self) -> Option<NumberedLine<'a>> {
        while let Some(line) = self.next_line() {
            if !says_nothing(line.text) {
                return Some(line);
            }
        }
        None
    }
}

fn says_nothing(line: &[u8]) -> bool
    ensures { result ≡ spec.says_nothing line.now }
{
    match line {
        [] => true,
        [first, ..] => *first == b'#',
    }
}

/// How many lines a text has, including those that say nothing.
pub(crate) fn line_count(text: &[u8]) -> usize
    ensures { result ≡ spec.line_count text.now }
{
    line_feeds(text) + usize::from(is_open(text))
}

/// How many line feeds a text has, block by block.
fn line_feeds(text: &[u8]) -> usize
    ensures { result ≡ count_by spec.is_line_feed text.now }
{
    let mut count = 0;
    let mut rest = text;
    while rest.len() > BLOCK {
        let (block, following) = rest.split_at(BLOCK);
        count += usize::from(line_feeds_of_block(block));
        rest = following;
    }
    count + usize::from(line_feeds_of_block(rest))
}

/// How many line feeds a block has: few enough for a number of eight bits, so that many bytes are compared at a time.
#[inline(always)]
fn line_feeds_of_block(block: &[u8]) -> u8
    requires { length block.now ≤ BLOCK }
    ensures { result ≡ count_by spec.is_line_feed block.now }
{
    let mut count = 0;
    for byte in block {
        count += u8::from(*byte == b'\n');
    }
    count
}

/// Whether text follows the last line feed.
fn is_open(text: &[u8]) -> bool
    ensures { result ≡ not (length (after_last spec.is_line_feed text.now) == 0) }
{
    match text {
        [] => false,
        [.., last] => *last != b'\n',
    }
}

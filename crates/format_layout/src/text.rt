//! A text, laid out line by line.
ghost use Rattle.std.specs.Prelude.{◌≡◌, ◌<◌, suc, length, take};
ghost use Rattle.format_mean.specs.Layout.{formatted_lines};
ghost use Rattle.format_mean.specs.Pieces as spec;
ghost use Rattle.outside.specs.Lines.{Wrote};
ghost use Rattle.outside.specs.Tells.{tells_of};

use crate::line::LineCursor;
use crate::marks::{is_blank, is_feed, length_after};
use outside::{Sink, SinkError};
use std::alloc::Global;

/// Puts a text that is laid out, one line a put.
pub fn lay_out<O: Sink>(alloc: Global, text: &[u8], out: &mut O) -> Result<(), SinkError>
    ensures { Wrote (formatted_lines text.now) (tells_of O.Sink out.old) (tells_of O.Sink out.new) result }
{
    let mut line = LineCursor::first(alloc);
    let mut feeds = 0;
    let mut rest = text;
    while let Some((first, following)) = rest.split_first() {
        if is_feed(*first) {
            feeds = more_feeds(feeds);
            rest = following;
            continue;
        }
        if is_blank(*first) {
            rest = following;
            continue;
        }
        let more = length_after(*first, following);
        let spelling = front(rest, more);
        match line.put(feeds, spelling, out) {
            Ok(()) => {}
            Err(error) => return Err(error),
        }
        feeds = 0;
        let (_, after) = following.split_at(more);
        rest = after;
    }
    line.finish(out)
}

/// The first byte of a text and `more` after it.
fn front(text: &[u8], more: usize) -> &[u8]
    requires { more < length text.now }
    ensures { result.now ≡ take (suc more) text.now }
{
    &text[..more + 1]
}

/// One more line feed, of which two count.
#[tactic(auto, using(crate::proofs::Lines::feeds_more))]
fn more_feeds(feeds: usize) -> usize
    ensures { result ≡ spec.more_feeds feeds }
{
    if feeds == 0 { 1 } else { 2 }
}

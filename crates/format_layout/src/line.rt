//! The line that is being laid out.
ghost use Rattle.std.specs.Prelude.{◌≡◌, ◌++◌, ◌∷◌, [], OnOk, replicate, length};
ghost use Rattle.format_mean.specs.Layout as spec;
ghost use Rattle.outside.specs.Lines.{Wrote};
ghost use Rattle.outside.specs.Tells.{tells_of};
ghost use Rattle.format_layout.specs.Shown.{begun_of, piece_of};

use crate::class::{are_joined, class_of, ends_statement, is_brace, is_remark, seen_after};
use format_mean::{COMMENT_COLUMN, Class, DEEPEST, HANG, STEP, Stand};
use outside::{Sink, SinkError, put_line};
use std::alloc::{AllocError, Global};

/// A line that has begun, and where the next token or comment stands.
#[derive(Drop)]
pub(crate) struct LineCursor {
    stand: Stand,
    bytes: Vec<u8>,
}

impl LineCursor {
    /// The line with which a file begins.
    pub(crate) fn first(alloc: Global) -> LineCursor
        ensures { begun_of result ≡ spec.beginning }
    {
        LineCursor {
            stand: Stand {
                depth: 0,
                in_layer: false,
                last: Class::Semicolon,
            },
            bytes: Vec::new(alloc),
        }
    }

    /// Puts a token or comment after `feeds` line feeds: ends the line before it, or goes on with it.
    pub(crate) fn put<O: Sink>(
        &mut self,
        feeds: usize,
        spelling: &[u8],
        out: &mut O,
    ) -> Result<(), SinkError>
        ensures wrote { Wrote (spec.lines_at (begun_of self.old) (piece_of feeds spelling.now))
            (tells_of O.Sink out.old) (tells_of O.Sink out.new) result }
        ensures begun { OnOk result
            (begun_of self.new ≡ spec.begun_at (begun_of self.old) (piece_of feeds spelling.now)) }
    {
        let class = class_of(spelling);
        let feeds = feeds_before(is_bare(&self.bytes), self.stand, class, feeds);
        end_line(&mut self.bytes, feeds, out)?;
        put_after(&mut self.bytes, self.stand, class, spelling)?;
        self.stand = following(self.stand, class);
        Ok(())
    }

    /// Puts the last line.
    #[tactic(auto, using(crate::proofs::Lines::last_ended, crate::proofs::Lines::last_none))]
    pub(crate) fn finish<O: Sink>(&mut self, out: &mut O) -> Result<(), SinkError>
        ensures { Wrote (spec.last_line self.old.bytes.items) (tells_of O.Sink out.old) (tells_of O.Sink out.new)
            result }
    {
        if is_bare(&self.bytes) {
            return Ok(());
        }
        end_line(&mut self.bytes, 1, out)
    }
}

/// Ends a line by `feeds` line feeds, if there are any.
#[tactic(auto, using(crate::proofs::Rules::of_end_line))]
fn end_line<O: Sink>(line: &mut Vec<u8>, feeds: usize, out: &mut O) -> Result<(), SinkError>
    ensures wrote { Wrote (spec.line_at_feeds line.old.items feeds) (tells_of O.Sink out.old) (tells_of O.Sink out.new)
        result }
    ensures left { OnOk result (line.new.items ≡ spec.left_of line.old.items feeds) }
{
    if feeds == 0 {
        return Ok(());
    }
    put_ended(line, feeds, out)
}

/// Puts a line with the line feeds that end it, and leaves none of it.
#[tactic(auto, using(outside::proofs::Gaining::begins_none))]
fn put_ended<O: Sink>(line: &mut Vec<u8>, feeds: usize, out: &mut O) -> Result<(), SinkError>
    ensures wrote { Wrote ((line.old.items ++ replicate feeds 10) ∷ []) (tells_of O.Sink out.old)
        (tells_of O.Sink out.new) result }
    ensures left { OnOk result (line.new.items ≡ []) }
{
    push_many(line, b'\n', feeds)?;
    put_line(line, out)?;
    line.clear();
    Ok(())
}

/// Puts a token or comment after what a line has.
fn put_after(
    line: &mut Vec<u8>,
    stand: Stand,
    class: Class,
    spelling: &[u8],
) -> Result<(), AllocError>
    ensures { OnOk result (line.new.items
        ≡ line.old.items ++ replicate (spec.blanks_before stand line.old.items class) 32 ++ spelling.now) }
{
    let blanks = if is_bare(line) {
        indentation(stand, class)
    } else {
        blanks_apart(stand, line.len(), class)
    };
    push_many(line, b' ', blanks)?;
    line.extend_from_slice(spelling)
}

/// Adds a byte `count` times.
fn push_many(line: &mut Vec<u8>, byte: u8, count: usize) -> Result<(), AllocError>
    ensures { OnOk result (line.new.items ≡ line.old.items ++ replicate count byte) }
{
    for _ in 0..count {
        line.push(byte)?;
    }
    Ok(())
}

/// How many line feeds stand before a token or comment after a line that is bare or not.
fn feeds_before(bare: bool, stand: Stand, class: Class, feeds: usize) -> usize
    ensures { result ≡ spec.feeds_of bare stand class feeds }
{
    if bare {
        0
    } else if begins_line(stand, class) {
        at_least_one(feeds)
    } else {
        feeds
    }
}

#[tactic(auto, using(crate::proofs::Lines::one_at_least))]
fn at_least_one(count: usize) -> usize
    ensures { result ≡ spec.at_least_one count }
{
    if count == 0 { 1 } else { count }
}

/// Whether a token or comment has to begin a line.
fn begins_line(stand: Stand, class: Class) -> bool
    ensures { result ≡ spec.begins_line stand class }
{
    is_remark(stand.last) || leads(stand, class)
}

fn leads(stand: Stand, class: Class) -> bool
    ensures { result ≡ spec.leads stand class }
{
    match class {
        Class::Layer | Class::Stack | Class::Declaring => true,
        Class::Going => stand.depth == 1,
        Class::Closing => stand.depth == 1 && stand.in_layer,
        _ => false,
    }
}

/// How far a line is indented.
fn indentation(stand: Stand, class: Class) -> usize
    ensures { result ≡ spec.indentation stand class }
{
    let hang = if ends_statement(stand.last) || is_brace(class) {
        0
    } else {
        HANG
    };
    STEP * usize::from(depth_of(stand, class)) + hang
}

/// How many braces are open where a line begins.
fn depth_of(stand: Stand, class: Class) -> u8
    ensures { result ≡ spec.depth_of stand class }
{
    match class {
        Class::Closing => stand.depth.saturating_sub(1),
        _ => stand.depth,
    }
}

/// How many blanks stand before a token or comment in a line that has `column` bytes.
fn blanks_apart(stand: Stand, column: usize, class: Class) -> usize
    ensures { result ≡ spec.blanks_apart stand column class }
{
    match class {
        Class::Remark => at_least_one(COMMENT_COLUMN.saturating_sub(column)),
        _ if are_joined(stand.last, class) => 0,
        _ => 1,
    }
}

/// Where the next token or comment stands.
fn following(stand: Stand, class: Class) -> Stand
    ensures { result ≡ spec.following stand class }
{
    Stand {
        depth: depth_after(stand.depth, class),
        in_layer: in_layer_after(stand.in_layer, class),
        last: seen_after(stand.last, class),
    }
}

fn depth_after(depth: u8, class: Class) -> u8
    ensures { result ≡ spec.depth_after depth class }
{
    match class {
        Class::Opening if depth < DEEPEST => depth + 1,
        Class::Closing => depth.saturating_sub(1),
        _ => depth,
    }
}

fn in_layer_after(was: bool, class: Class) -> bool
    ensures { result ≡ spec.in_layer_after was class }
{
    match class {
        Class::Layer => true,
        Class::Stack => false,
        _ => was,
    }
}

/// Whether a line has nothing yet.
#[tactic(auto, using(crate::proofs::Lines::bare_is))]
fn is_bare(line: &[u8]) -> bool
    ensures { result ≡ spec.is_bare line.now }
{
    line.is_empty()
}

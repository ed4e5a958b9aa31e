//! The program over any shelf and sinks.
ghost use Rattle.std.specs.Prelude.{map};
ghost use Rattle.std.specs.String.{string_bytes};
ghost use Rattle.outside.specs.Said.{errors};
ghost use Rattle.outside.specs.Tells.{tells_of};
ghost use Rattle.chart_mean.specs.Runs.{Comes, Draws, Runs, around};
ghost use Rattle.chart_mean.specs.Words.{request_of};
ghost use Rattle.chart_draw.specs.Charts.{Fetches, ReadsText, Writes};
ghost use Rattle.chart_draw.specs.Reading.{request_shown};

use crate::picture::chart;
use crate::saying::say;
use crate::words::{Request, asked_for};
use audit_judge::LONGEST_REPORT;
use chart_mean::ChartEnding;
use outside::{Got, Shelf, Sink, put_line};
use std::alloc::Global;

/// Draws the picture that the words ask for, the program's own name left out, on `out`, and answers the program's
/// status. Where it ends with another status than 0, one line on `err` says why.
///
/// With status 0 `out` gained the picture of the definitions, byte for byte, in one put; 1 comes only where the file is
/// no report or too large, 2 only where the words ask for no picture, 4 and 5 only where the shelf or `out` counted a
/// fault in this call, and 7 where memory ran out. Where the shelf tells that it has a report and no put of `out`
/// failed, the status is 0 or 7.
pub fn run<S: Shelf, O: Sink, E: Sink>(
    alloc: Global,
    words: &[String],
    shelf: &mut S,
    out: &mut O,
    err: &mut E,
) -> u8
    ensures { Runs (map string_bytes words.now) (around S.Shelf O.Sink shelf.old shelf.new out.old out.new)
        (errors (tells_of E.Sink err.old) (tells_of E.Sink err.new) result) }
{
    let ending = perform(alloc, words, shelf, out);
    say(alloc, ending, err)
}

/// Draws what the words ask for, and answers how that ended.
pub(crate) fn perform<S: Shelf, O: Sink>(
    alloc: Global,
    words: &[String],
    shelf: &mut S,
    out: &mut O,
) -> ChartEnding
    ensures { Comes (request_of (map string_bytes words.now))
        (around S.Shelf O.Sink shelf.old shelf.new out.old out.new) result }
{
    match asked_for(alloc, words) {
        Ok(Some(request)) => draw_report(alloc, request, shelf, out),
        Ok(None) => ChartEnding::Words,
        Err(_) => ChartEnding::Memory,
    }
}

fn draw_report<S: Shelf, O: Sink>(
    alloc: Global,
    request: Request<'_>,
    shelf: &mut S,
    out: &mut O,
) -> ChartEnding
    ensures { Draws (request_shown request.entry) (around S.Shelf O.Sink shelf.old shelf.new out.old out.new) result }
{
    match fetch(alloc, request, shelf) {
        Ok(picture) => write(&picture, out),
        Err(ending) => ending,
    }
}

/// Reads a report and draws its picture, or answers how the program ends.
fn fetch<S: Shelf>(
    alloc: Global,
    request: Request<'_>,
    shelf: &mut S,
) -> Result<Vec<u8>, ChartEnding>
    ensures { Fetches (request_shown request.entry) (S.told shelf.old) (S.faults shelf.old) (S.faults shelf.new)
        result }
{
    let text = fetch_text(alloc, request, shelf)?;
    chart(alloc, &text, request.excerpt)
}

/// Reads a file, which is to be a report, or answers how the program ends.
fn fetch_text<S: Shelf>(
    alloc: Global,
    request: Request<'_>,
    shelf: &mut S,
) -> Result<Vec<u8>, ChartEnding>
    ensures { ReadsText (request_shown request.entry) (S.told shelf.old) (S.faults shelf.old) (S.faults shelf.new)
        result }
{
    let mut text = Vec::new(alloc);
    match shelf.read(request.file, &mut text, LONGEST_REPORT as u64)? {
        Got::Whole => Ok(text),
        Got::TooLong => Err(ChartEnding::TooLarge),
    }
}

/// Writes a picture, and answers how the program ended.
fn write<O: Sink>(picture: &[u8], out: &mut O) -> ChartEnding
    ensures { Writes picture.now (tells_of O.Sink out.old) (tells_of O.Sink out.new) result }
{
    match put_line(picture, out) {
        Ok(()) => ChartEnding::Done,
        Err(cause) => ChartEnding::from(cause),
    }
}

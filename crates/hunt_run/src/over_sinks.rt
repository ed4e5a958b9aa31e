//! The program over any shelf and sinks.

ghost use Rattle.std.specs.Prelude.{map};
ghost use Rattle.std.specs.Option.{option_map};
ghost use Rattle.std.specs.String.{string_bytes};
ghost use Rattle.outside.specs.Said.{errors};
ghost use Rattle.outside.specs.Tells.{tells_of};
ghost use Rattle.file_jobs.specs.Stack.{ReadsText};
ghost use Rattle.job_ends.specs.Comes.{around};
ghost use Rattle.job_ends.specs.Shown.{shown_end};
ghost use Rattle.hunt_mean.specs.Ends.{Comes, Hunts, Runs};
ghost use Rattle.hunt_mean.specs.Words.{request_of};
ghost use Rattle.hunt_run.specs.Looks.{Fetches, Writes};
ghost use Rattle.hunt_run.specs.Reading.{request_shown};

use crate::hunt::{Output, look};
use crate::watch::Watch;
use crate::words::{Request, asked_for};
use file_judge::FileError;
use job_ends::{Ending, say};
use layer_ast::LONGEST_FILE;
use outside::{Clock, Got, Shelf, Sink, SinkError, put_line};
use std::alloc::Global;
use std::io::Write;

/// Does the hunt that the words ask for, the program's own name left out, and answers the program's status. What it
/// writes goes to `out`, in one put; where it ends with another status than 0, one line on `err` says why. What `watch`
/// tells of its progress goes elsewhere.
///
/// With status 8, `out` gained a script whose report breaks the law, by the definitions, after comments with the two
/// lines that break it; with 0, the number of runs in which no such script was found, which claims nothing about
/// breaches that were missed. 1 comes exactly where the stack file is refused, 2 where the words ask for no hunt, and 3
/// where the members would keep too many rows; 4 and 5 come only where the shelf or `out` counted a fault in this call;
/// and 7 where memory ran out.
pub fn run<S: Shelf, O: Sink, E: Sink, C: Clock + Drop, N: Write + Drop>(
    alloc: Global,
    words: &[String],
    shelf: &mut S,
    out: &mut O,
    err: &mut E,
    watch: &mut Watch<C, N>,
) -> u8
    ensures { Runs (map string_bytes words.now) (around S.Shelf O.Sink shelf.old shelf.new out.old out.new)
        (errors (tells_of E.Sink err.old) (tells_of E.Sink err.new) result) }
{
    let ending = perform(alloc, words, shelf, out, watch);
    say(alloc, ending, err)
}

/// Does what the words ask for, and answers how that ended.
pub(crate) fn perform<S: Shelf, O: Sink, C: Clock + Drop, N: Write + Drop>(
    alloc: Global,
    words: &[String],
    shelf: &mut S,
    out: &mut O,
    watch: &mut Watch<C, N>,
) -> Ending
    ensures { Comes (request_of (map string_bytes words.now))
        (around S.Shelf O.Sink shelf.old shelf.new out.old out.new) (shown_end result) }
{
    match asked_for(alloc, words) {
        Ok(Some(request)) => hunt(alloc, request, shelf, out, watch),
        Ok(None) => Ending::Words,
        Err(_) => Ending::Memory,
    }
}

fn hunt<S: Shelf, O: Sink, C: Clock + Drop, N: Write + Drop>(
    alloc: Global,
    request: Request<'_>,
    shelf: &mut S,
    out: &mut O,
    watch: &mut Watch<C, N>,
) -> Ending
    ensures { Hunts (request_shown request.entry) (around S.Shelf O.Sink shelf.old shelf.new out.old out.new)
        (shown_end result) }
{
    match fetch(alloc, request, shelf, watch) {
        Ok(output) => write(&output, out),
        Err(ending) => ending,
    }
}

/// Reads a stack file and hunts over it: what is written, or how the program ends.
fn fetch<S: Shelf, C: Clock + Drop, N: Write + Drop>(
    alloc: Global,
    request: Request<'_>,
    shelf: &mut S,
    watch: &mut Watch<C, N>,
) -> Result<Output, Ending>
    ensures { Fetches (request_shown request.entry) (S.told shelf.old) (S.faults shelf.old) (S.faults shelf.new)
        result }
{
    match fetch_text(alloc, request.file, shelf) {
        Ok(file) => look(alloc, request, &file, watch),
        Err(ending) => Err(ending),
    }
}

/// Reads a stack file, or finds how the program ends.
fn fetch_text<S: Shelf>(alloc: Global, file: &str, shelf: &mut S) -> Result<Vec<u8>, Ending>
    ensures { ReadsText file.now (S.told shelf.old) (S.faults shelf.old) (S.faults shelf.new) result }
{
    let mut text = Vec::new(alloc);
    match shelf.read(file, &mut text, u64::from(LONGEST_FILE))? {
        Got::Whole => Ok(text),
        Got::TooLong => Err(Ending::File(FileError::TooLarge)),
    }
}

/// Writes an output, and answers how the program ended.
fn write<O: Sink>(output: &Output, out: &mut O) -> Ending
    ensures { Writes output.now.text output.now.is_breach (tells_of O.Sink out.old) (tells_of O.Sink out.new)
        (shown_end result) }
{
    match put_line(output.text.slice(), out) {
        Ok(()) if output.is_breach => Ending::Breached,
        Ok(()) => Ending::Done,
        Err(SinkError::Failed) => Ending::Write,
        Err(SinkError::Memory) => Ending::Memory,
    }
}

//! The program over streams, which are handed what was put, and over the system's arguments, files and streams.
ghost use Rattle.std.specs.Prelude.{◌≡◌, map};
ghost use Rattle.std.specs.String.{string_bytes};
ghost use Rattle.format_run.specs.Ends.{name_of};
ghost use Rattle.format_run.specs.Through.{RunsThrough, Delivers, end_after_delivery};
ghost use Rattle.program_streams.specs.Streams.{over};

use crate::ending::{LayoutEnding, say};
use crate::over_sinks::perform;
use outside::{FileShelf, NO_MEMORY, Shelf, Sink, StdSink};
use program_streams::{begin, hand_on};
use std::alloc::Global;
use std::io::Write;
use std::rt::{Env, Files};

/// Lays out the file that the words name, hands on what was put to both streams, and answers the program's status.
///
/// The status is 0 only where the whole text was put and the output's stream got all of it. Where the stream did not,
/// that is said as a fault of writing; any other end of a run stays. What was said is handed on to the stream of `err`,
/// or that sink counted a fault.
pub fn run_through<S: Shelf, O: Write + Drop, E: Write + Drop>(
    alloc: Global,
    words: &[String],
    shelf: &mut S,
    out: &mut StdSink<O>,
    err: &mut StdSink<E>,
) -> u8
    ensures through { RunsThrough (name_of (map string_bytes words.now)) (S.told shelf.old) (S.faults shelf.old)
        (S.faults shelf.new)
        (over O.Write ⟦<StdSink<O> as Sink>⟧ out.old out.new) (over E.Write ⟦<StdSink<E> as Sink>⟧ err.old err.new)
        result }
    ensures delivered { result ≡ 0 →
        Delivers (name_of (map string_bytes words.now)) (S.told shelf.old) (S.faults shelf.old) (S.faults shelf.new)
        (over O.Write ⟦<StdSink<O> as Sink>⟧ out.old out.new) }
{
    let ending = perform(alloc, words, shelf, out);
    let whole = hand_on(out);
    let status = say(alloc, end_after_delivery(whole, ending), err);
    let _ = hand_on(err);
    status
}

/// How a run ended, by whether the output's stream got all that was put: a whole text that it lacks is a fault of
/// writing.
fn end_after_delivery(whole: bool, ending: LayoutEnding) -> LayoutEnding
    ensures { result ≡ end_after_delivery whole ending }
{
    match ending {
        LayoutEnding::Done if !whole => LayoutEnding::Write,
        ending => ending,
    }
}

/// Lays out the file that the command line names, and answers the program's status. Where memory runs out before the
/// standard error is made, nothing is said.
pub fn program<R: AllocGlobal + Env + Files, O: Write + Drop, E: Write + Drop>(
    system: &R,
    out: O,
    err: E,
) -> u8 {
    let Ok((words, mut out, mut err)) = begin(system, out, err) else {
        return NO_MEMORY;
    };
    let mut shelf = FileShelf::new(system);
    run_through(system.alloc(), &words, &mut shelf, &mut out, &mut err)
}

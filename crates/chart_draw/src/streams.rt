//! A run over streams, which are handed what was put.
ghost use Rattle.std.specs.Prelude.{◌≡◌, map};
ghost use Rattle.std.specs.String.{string_bytes};
ghost use Rattle.chart_mean.specs.Through.{Delivers, RunsThrough, end_after_delivery};
ghost use Rattle.program_streams.specs.Streams.{over};
ghost use Rattle.chart_mean.specs.Words.{request_of};

use crate::over_sinks::perform;
use crate::saying::say;
use chart_mean::ChartEnding;
use outside::{Shelf, Sink, StdSink};
use program_streams::hand_on;
use std::alloc::Global;
use std::io::Write;

/// Draws the picture that the words ask for, hands on what was put to both streams, and answers the program's status.
///
/// The status is 0 only where the whole picture was put and the output's stream got all of it. Where the stream did
/// not, that is said as a fault of writing; any other end of a run stays. What was said is handed on to the stream of
/// `err`, or that sink counted a fault.
pub fn run_through<S: Shelf, O: Write + Drop, E: Write + Drop>(
    alloc: Global,
    words: &[String],
    shelf: &mut S,
    out: &mut StdSink<O>,
    err: &mut StdSink<E>,
) -> u8
    ensures through { RunsThrough (map string_bytes words.now) (S.told shelf.old) (S.faults shelf.old)
        (S.faults shelf.new)
        (over O.Write ⟦<StdSink<O> as Sink>⟧ out.old out.new) (over E.Write ⟦<StdSink<E> as Sink>⟧ err.old err.new)
        result }
    ensures delivered { result ≡ 0 →
        Delivers (request_of (map string_bytes words.now)) (S.told shelf.old) (S.faults shelf.old) (S.faults shelf.new)
        (over O.Write ⟦<StdSink<O> as Sink>⟧ out.old out.new) }
{
    let ending = perform(alloc, words, shelf, out);
    let whole = hand_on(out);
    let status = say(alloc, end_after_delivery(whole, ending), err);
    let _ = hand_on(err);
    status
}

/// How a run ended, by whether the output's stream got all that was put: a picture that it lacks is a fault of writing.
fn end_after_delivery(whole: bool, ending: ChartEnding) -> ChartEnding
    ensures { result ≡ end_after_delivery whole ending }
{
    if whole {
        return ending;
    }
    match ending {
        ChartEnding::Done => ChartEnding::Write,
        ending => ending,
    }
}

//! The handing on of what a job put, and what is said of its end.

ghost use Rattle.std.specs.Prelude.{◌≡◌};
ghost use Rattle.job_ends.specs.Shown.{shown_end};
ghost use Rattle.job_ends.specs.Closes.{Closes, end_after_delivery};
ghost use Rattle.program_streams.specs.Streams.{over};

use crate::ending::Ending;
use crate::saying::say;
use outside::{Sink, StdSink};
use program_streams::hand_on;
use std::alloc::Global;
use std::io::Write;

/// Hands on what a job put to the output's stream, says how the job ended, hands on what was said, and answers the
/// program's status.
///
/// Where the output's stream lacks something, a whole output is said as a fault of writing; any other end stays.
/// What was said is handed on to the stream of `err`, or that sink counted a fault.
pub fn close<O: Write + Drop, E: Write + Drop>(
    alloc: Global,
    ending: Ending,
    out: &mut StdSink<O>,
    err: &mut StdSink<E>,
) -> u8
    ensures { Closes (shown_end ending) (over O.Write ⟦<StdSink<O> as Sink>⟧ out.old out.new)
        (over E.Write ⟦<StdSink<E> as Sink>⟧ err.old err.new) result }
{
    let whole = hand_on(out);
    let status = say(alloc, end_after_delivery(whole, ending), err);
    let _ = hand_on(err);
    status
}

/// How a job ended, by whether the output's stream got all that was put; where it lacks something, a whole output is a
/// fault of writing.
fn end_after_delivery(whole: bool, ending: Ending) -> Ending
    ensures { shown_end result ≡ end_after_delivery whole (shown_end ending) }
{
    if whole {
        return ending;
    }
    match ending {
        Ending::Done | Ending::Breached => Ending::Write,
        ending => ending,
    }
}

//! A run over streams, which are handed what was put.

ghost use Rattle.std.specs.Prelude.{◌≡◌, map};
ghost use Rattle.std.specs.String.{string_bytes};
ghost use Rattle.end_mean.specs.Status.{breached, done};
ghost use Rattle.hunt_mean.specs.Through.{Delivers, RunsThrough};
ghost use Rattle.program_streams.specs.Streams.{over};
ghost use Rattle.hunt_mean.specs.Words.{request_of};

use crate::over_sinks::perform;
use crate::watch::Watch;
use job_ends::close;
use outside::{Clock, Shelf, Sink, StdSink};
use std::alloc::Global;
use std::io::Write;

/// Does the hunt that the words ask for, hands on what was put to both streams, and answers the program's status.
///
/// The status is 0, or 8, only where all was put and the output's stream got all of it. Where the stream did not, that
/// is said as a fault of writing; any other end of a run stays. What was said is handed on to the stream of `err`, or
/// that sink counted a fault.
pub fn run_through<S: Shelf, O: Write + Drop, E: Write + Drop, C: Clock + Drop, N: Write + Drop>(
    alloc: Global,
    words: &[String],
    shelf: &mut S,
    out: &mut StdSink<O>,
    err: &mut StdSink<E>,
    watch: &mut Watch<C, N>,
) -> u8
    ensures through { RunsThrough (map string_bytes words.now) (S.told shelf.old) (S.faults shelf.old)
        (S.faults shelf.new)
        (over O.Write ⟦<StdSink<O> as Sink>⟧ out.old out.new) (over E.Write ⟦<StdSink<E> as Sink>⟧ err.old err.new)
        result }
    ensures held { result ≡ 0 →
        Delivers (request_of (map string_bytes words.now)) (S.told shelf.old) (S.faults shelf.old) (S.faults shelf.new)
        (over O.Write ⟦<StdSink<O> as Sink>⟧ out.old out.new) done }
    ensures found { result ≡ 8 →
        Delivers (request_of (map string_bytes words.now)) (S.told shelf.old) (S.faults shelf.old) (S.faults shelf.new)
        (over O.Write ⟦<StdSink<O> as Sink>⟧ out.old out.new) breached }
{
    let ending = perform(alloc, words, shelf, out, watch);
    close(alloc, ending, out, err)
}

//! A run over streams, which are handed what was put.

ghost use Rattle.std.specs.Prelude.{◌≡◌, map};
ghost use Rattle.std.specs.String.{string_bytes};
ghost use Rattle.end_mean.specs.Status.{breached, done};
ghost use Rattle.bound_mean.specs.Through.{Closes, Delivers, RunsThrough};
ghost use Rattle.bound_mean.specs.Told.{ended, stopped};
ghost use Rattle.bound_mean.specs.Words.{request_of};
ghost use Rattle.bound_run.specs.Shown.{shown_finish};
ghost use Rattle.program_streams.specs.Streams.{over};

use crate::finish::{Finish, after_delivery, say_finish};
use crate::over_sinks::perform;
use crate::watch::Watch;
use outside::{Clock, Shelf, Sink, StdSink};
use program_streams::hand_on;
use std::alloc::Global;
use std::io::Write;

/// Does the check that the words ask for, hands on what was put to both streams, and answers the program's status.
///
/// The status is 0, 8 or 10 only where all was put and the output's stream got all of it. Where the stream did not,
/// that is said as a fault of writing; any other end of a run stays. What was said is handed on to the stream of `err`,
/// or that sink counted a fault.
pub fn run_through<S: Shelf, O: Write + Drop, E: Write + Drop, C: Clock + Drop, N: Write + Drop>(
    words: &[String],
    shelf: &mut S,
    out: &mut StdSink<O>,
    err: &mut StdSink<E>,
    watch: &mut Watch<C, N>,
) -> u8
    ensures through { RunsThrough (map string_bytes words.now) (S.told shelf.old) (S.faults shelf.old)
        (S.faults shelf.new)
        (over O.Write ⟦<StdSink<O> as Sink>⟧ out.old out.new) (over E.Write ⟦<StdSink<E> as Sink>⟧ err.old err.new)
        result }
    ensures held { result ≡ 0 →
        Delivers (request_of (map string_bytes words.now)) (S.told shelf.old) (S.faults shelf.old) (S.faults shelf.new)
        (over O.Write ⟦<StdSink<O> as Sink>⟧ out.old out.new) (ended done) }
    ensures found { result ≡ 8 →
        Delivers (request_of (map string_bytes words.now)) (S.told shelf.old) (S.faults shelf.old) (S.faults shelf.new)
        (over O.Write ⟦<StdSink<O> as Sink>⟧ out.old out.new) (ended breached) }
    ensures stopped { result ≡ 10 →
        Delivers (request_of (map string_bytes words.now)) (S.told shelf.old) (S.faults shelf.old) (S.faults shelf.new)
        (over O.Write ⟦<StdSink<O> as Sink>⟧ out.old out.new) stopped }
{
    let alloc = watch.alloc();
    let finish = perform(alloc, words, shelf, out, watch);
    close(alloc, finish, out, err)
}

/// Hands on what a check put to the output's stream, says how the check ended, hands on what was said, and answers the
/// program's status.
fn close<O: Write + Drop, E: Write + Drop>(
    alloc: Global,
    finish: Finish,
    out: &mut StdSink<O>,
    err: &mut StdSink<E>,
) -> u8
    ensures { Closes (shown_finish finish) (over O.Write ⟦<StdSink<O> as Sink>⟧ out.old out.new)
        (over E.Write ⟦<StdSink<E> as Sink>⟧ err.old err.new) result }
{
    let whole = hand_on(out);
    let status = say_finish(alloc, after_delivery(whole, finish), err);
    let _ = hand_on(err);
    status
}

//! A run over streams, which are handed what was put.

ghost use Rattle.std.specs.Prelude.{map};
ghost use Rattle.std.specs.String.{string_bytes};
ghost use Rattle.job_mean.specs.Job.{job_of_words};
ghost use Rattle.node_jobs.specs.Comes.{beyond};
ghost use Rattle.stackc_run.specs.Through.{RunsThrough, Delivers, IsWhole};
ghost use Rattle.program_streams.specs.Streams.{over};

use crate::perform::perform;
use job_ends::close;
use live_outside::LiveLinks;
use outside::{Clock, Shelf, Sink, StdSink};
use std::alloc::Global;
use std::io::Write;

/// Does the job that the words name, hands on what was put to both streams, and answers the program's status.
///
/// The status is 0, or 8, only where the job's whole output was put and the output's stream got all of it. Where the
/// stream did not, that is said as a fault of writing; any other end of a job stays. What was said is handed on to the
/// stream of `err`, or that sink counted a fault.
pub fn run_through<S: Shelf, O: Write + Drop, E: Write + Drop, N: LiveLinks, C: Clock>(
    alloc: Global,
    words: &[String],
    shelf: &mut S,
    out: &mut StdSink<O>,
    err: &mut StdSink<E>,
    links: &mut N,
    clock: &mut C,
) -> u8
    ensures through { RunsThrough (map string_bytes words.now) (S.told shelf.old) (S.faults shelf.old)
        (S.faults shelf.new)
        (beyond N.Links C.Clock links.old links.new clock.old clock.new)
        (over O.Write ⟦<StdSink<O> as Sink>⟧ out.old out.new) (over E.Write ⟦<StdSink<E> as Sink>⟧ err.old err.new)
        result }
    ensures delivered { IsWhole result →
        Delivers (job_of_words (map string_bytes words.now)) (S.told shelf.old) (S.faults shelf.old)
        (S.faults shelf.new)
        (beyond N.Links C.Clock links.old links.new clock.old clock.new)
        (over O.Write ⟦<StdSink<O> as Sink>⟧ out.old out.new) }
{
    let ending = perform(alloc, words, shelf, out, links, clock);
    close(alloc, ending, out, err)
}

//! The program over any shelf and sinks.

ghost use Rattle.std.specs.Prelude.{map};
ghost use Rattle.std.specs.String.{string_bytes};
ghost use Rattle.outside.specs.Said.{errors};
ghost use Rattle.outside.specs.Tells.{tells_of};
ghost use Rattle.job_ends.specs.Comes.{around};
ghost use Rattle.node_jobs.specs.Comes.{beyond};
ghost use Rattle.stackc_run.specs.Performed.{Does};

use crate::perform::perform;
use job_ends::say;
use live_outside::{LiveLinks, LiveSink};
use outside::{Clock, Shelf, Sink};
use std::alloc::Global;

/// Does the job that the words name, the program's own name left out, and answers the program's
/// status. What the job writes goes to `out`; where it ends with another status than 0, one line on `err` says why.
///
/// With status 0 `out` gained the whole output of the definitions, byte for byte, in the mode that the words ask for,
/// and with 8 the breach that an audit found; 1, 2 and 3 come exactly where a file, the words, or the script, the plan
/// or the members are refused, 4 and 5 only where the shelf or `out` counted a fault in this call, 6 only where `links`
/// did, and 7 where memory ran out. A job that is good by what the shelf tells, and for which no put of `out` failed,
/// ends with 0, 8 or 7; a node does so only where the network bore it. Only a node uses `links` and `clock`.
///
/// Laws of `replay_laws` say what these lines are in bypass mode: the report is that of the layered meaning
/// (`replays_write_the_report`), each datagram spells the layered packet of its number (`packets_expand`), and one is
/// short exactly where its step was a common cast or send of an application whose output has a plan
/// (`short_exactly_where`).
pub fn run<S: Shelf, O: LiveSink, E: Sink, N: LiveLinks, C: Clock>(
    alloc: Global,
    words: &[String],
    shelf: &mut S,
    out: &mut O,
    err: &mut E,
    links: &mut N,
    clock: &mut C,
) -> u8
    ensures { Does (map string_bytes words.now)
        (around S.Shelf O.Sink shelf.old shelf.new out.old out.new)
        (beyond N.Links C.Clock links.old links.new clock.old clock.new)
        (errors (tells_of E.Sink err.old) (tells_of E.Sink err.new) result) }
{
    let ending = perform(alloc, words, shelf, out, links, clock);
    say(alloc, ending, err)
}

//! The program over any shelf and sinks.

ghost use Rattle.std.specs.Prelude.{map};
ghost use Rattle.std.specs.String.{string_bytes};
ghost use Rattle.outside.specs.Said.{errors};
ghost use Rattle.outside.specs.Tells.{tells_of};
ghost use Rattle.job_ends.specs.Comes.{around};
ghost use Rattle.bound_mean.specs.Ends.{Checks, Comes, Runs};
ghost use Rattle.bound_mean.specs.Words.{request_of};
ghost use Rattle.bound_run.specs.Reading.{request_shown};
ghost use Rattle.bound_run.specs.Shown.{shown_finish};

use crate::fetching::fetch;
use crate::finish::{Finish, finish_put, say_finish};
use crate::watch::Watch;
use crate::words::{Request, asked_for};
use job_ends::Ending;
use outside::{Clock, Shelf, Sink, put_line};
use std::alloc::Global;
use std::io::Write;

/// Does the check that the words ask for, the program's own name left out, and answers the program's status. What it
/// writes goes to `out`, in one put; where it ends with another status than 0, one line on `err` says why. What `watch`
/// tells of its progress goes elsewhere.
///
/// With status 0, each script of the family keeps the law, by the definitions, and `out` gained a line that says so;
/// with 8, `out` gained a script of the family that breaks it, of which no shorter one does; with 10, where the time is
/// up, `out` gained the number of events up to which each script keeps the law. 1 comes exactly where the stack file is
/// refused, 2 where the words ask for no check, and 3 where the acts are refused, or the members would keep too many
/// rows; 4 and 5 come only where the shelf or `out` counted a fault in this call; and 7 where memory ran out.
pub fn run<S: Shelf, O: Sink, E: Sink, C: Clock + Drop, N: Write + Drop>(
    words: &[String],
    shelf: &mut S,
    out: &mut O,
    err: &mut E,
    watch: &mut Watch<C, N>,
) -> u8
    ensures { Runs (map string_bytes words.now) (around S.Shelf O.Sink shelf.old shelf.new out.old out.new)
        (errors (tells_of E.Sink err.old) (tells_of E.Sink err.new) result) }
{
    let alloc = watch.alloc();
    let finish = perform(alloc, words, shelf, out, watch);
    say_finish(alloc, finish, err)
}

/// Does what the words ask for, and answers how that ended.
pub(crate) fn perform<S: Shelf, O: Sink, C: Clock + Drop, N: Write + Drop>(
    alloc: Global,
    words: &[String],
    shelf: &mut S,
    out: &mut O,
    watch: &mut Watch<C, N>,
) -> Finish
    ensures { Comes (request_of (map string_bytes words.now))
        (around S.Shelf O.Sink shelf.old shelf.new out.old out.new) (shown_finish result) }
{
    match asked_for(alloc, words) {
        Ok(Some(request)) => check(alloc, request, shelf, out, watch),
        Ok(None) => Finish::Ended(Ending::Words),
        Err(_) => Finish::Ended(Ending::Memory),
    }
}

/// Checks, and writes what is to be written.
fn check<S: Shelf, O: Sink, C: Clock + Drop, N: Write + Drop>(
    alloc: Global,
    request: Request<'_>,
    shelf: &mut S,
    out: &mut O,
    watch: &mut Watch<C, N>,
) -> Finish
    ensures { Checks (request_shown request.entry) (around S.Shelf O.Sink shelf.old shelf.new out.old out.new)
        (shown_finish result) }
{
    match fetch(alloc, request, shelf, watch) {
        Ok(output) => {
            let put = put_line(output.text.slice(), out);
            finish_put(output.kind, put)
        }
        Err(ending) => Finish::Ended(ending),
    }
}

//! How a check ends, and what is said of it.

ghost use Rattle.std.specs.Prelude.{◌≡◌};
ghost use Rattle.bound_mean.specs.Ends.{SaidSo};
ghost use Rattle.bound_mean.specs.Through.{finish_after_delivery};
ghost use Rattle.bound_run.specs.Shown.{finish_for, finish_put, shown_finish};
ghost use Rattle.outside.specs.Said.{errors};
ghost use Rattle.outside.specs.Tells.{tells_of};

use crate::output::Kind;
use job_ends::{Ending, say};
use outside::{Sink, SinkError, say_line};
use std::alloc::Global;

/// The status where the time was up.
const UNFINISHED: u8 = 10;

/// How a check ends: as a job does, or since its time was up.
#[derive(Clone, Copy)]
pub(crate) enum Finish {
    Ended(Ending),
    Stopped,
}

/// How a check ends whose whole output tells this.
fn finish_for(kind: Kind) -> Finish
    ensures { shown_finish result ≡ finish_for kind }
{
    match kind {
        Kind::Held => Finish::Ended(Ending::Done),
        Kind::HeldTo => Finish::Stopped,
        Kind::Breach => Finish::Ended(Ending::Breached),
    }
}

/// How a check ends whose output was put so.
pub(crate) fn finish_put(kind: Kind, put: Result<(), SinkError>) -> Finish
    ensures { shown_finish result ≡ finish_put kind put }
{
    match put {
        Ok(()) => finish_for(kind),
        Err(SinkError::Failed) => Finish::Ended(Ending::Write),
        Err(SinkError::Memory) => Finish::Ended(Ending::Memory),
    }
}

/// How a check ended, by whether the output's stream got all that was put.
pub(crate) fn after_delivery(whole: bool, finish: Finish) -> Finish
    ensures { shown_finish result ≡ finish_after_delivery whole (shown_finish finish) }
{
    if whole {
        return finish;
    }
    match finish {
        Finish::Stopped | Finish::Ended(Ending::Done | Ending::Breached) => {
            Finish::Ended(Ending::Write)
        }
        finish => finish,
    }
}

/// Says how a check ended, and answers the program's status.
pub(crate) fn say_finish<E: Sink>(alloc: Global, finish: Finish, err: &mut E) -> u8
    ensures { SaidSo (shown_finish finish) (errors (tells_of E.Sink err.old) (tells_of E.Sink err.new) result) }
{
    match finish {
        Finish::Ended(ending) => say(alloc, ending, err),
        Finish::Stopped => say_line(b"unfinished\n", UNFINISHED, err),
    }
}

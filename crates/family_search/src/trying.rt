//! The search.

ghost use Rattle.std.specs.Prelude.{◌≡◌, []};
ghost use Rattle.family_mean.specs.Family.{MayFollow};
ghost use Rattle.family_search.specs.Trying.{MayStop, Searches, StopsAt, Tries, events_of};

use crate::choice::Choice;
use crate::coming::next;
use crate::found::Found;
use crate::stop::Stop;
use crate::timer::Timer;
use crate::trial::Trial;
use std::alloc::{AllocError, Global};

/// Tries each script that goes on after these events by `left` more, and answers whether all keep the law. Where one
/// doesn't, it is left in place of the events.
fn all_keep<T: Trial, W: Timer>(
    alloc: Global,
    trial: &mut T,
    timer: &mut W,
    past: &mut Vec<Choice>,
    left: u16,
) -> Result<bool, Stop>
    requires { MayFollow (T.family trial.old) [] (events_of (T.family trial.old) past.old.items) }
    ensures { Tries (T.family trial.old) left past.old.items (T.family trial.new) past.new.items result }
{
    if left == 0 {
        timer.note_script();
        let keep = trial.keeps(alloc, past.as_slice())?;
        return Ok(keep);
    }
    if timer.is_late() {
        return Err(Stop::Late);
    }
    let depth = past.len();
    let mut next = next(alloc, trial, past.as_slice())?;
    while let Some(choice) = next.pop() {
        past.push(choice)?;
        let keep = all_keep(alloc, trial, timer, past, left - 1)?;
        if !keep {
            return Ok(false);
        }
        past.truncate(depth);
    }
    Ok(true)
}

/// Tries all scripts of a family, the shorter ones first: each keeps the law, or a shortest one that breaks it is
/// found; or the time is up before all were tried.
pub fn search<T: Trial, W: Timer>(
    alloc: Global,
    trial: &mut T,
    timer: &mut W,
    most: u16,
) -> Result<Found, AllocError>
    requires { (T.family trial.old).events ≡ most }
    ensures { Searches (T.family trial.old) (T.family trial.new) result }
{
    let mut past = Vec::new(alloc);
    for left in 0..u32::from(most) + 1 {
        match all_keep(alloc, trial, timer, &mut past, left as u16) {
            Ok(keep) => {
                if !keep {
                    return Ok(Found::Breach(past));
                }
            }
            Err(stop) => return stopped(stop, left as u16),
        }
    }
    Ok(Found::Holds)
}

/// What is found where a search stops at scripts of this many events.
fn stopped(stop: Stop, left: u16) -> Result<Found, AllocError>
    requires { MayStop stop left }
    ensures { StopsAt stop left result }
{
    match stop {
        Stop::Late => Ok(Found::HoldsTo(left - 1)),
        Stop::Memory => Err(AllocError),
    }
}

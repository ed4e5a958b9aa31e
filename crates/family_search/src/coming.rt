//! The events that may come next.

ghost use Rattle.std.specs.Prelude.{◌≡◌, [], IfOk, OnOk, length};
ghost use Rattle.family_mean.specs.Family.{MayFollow};
ghost use Rattle.family_search.specs.Coming.{AnswersMay, AreAll, AreGiven, PutsIf};
ghost use Rattle.family_search.specs.Trying.{AnswersNext, events_of};

use crate::choice::Choice;
use crate::due::may_be;
use crate::trial::Trial;
use std::alloc::{AllocError, Global};

/// Puts the giving of a packet to each member after other choices.
fn push_gives(all: &mut Vec<Choice>, packet: u32, members: u8) -> Result<(), AllocError>
    ensures { OnOk result (AreGiven packet members all.old.items all.new.items) }
{
    for id in 0..members {
        all.push(Choice::Give(packet, id))?;
    }
    Ok(())
}

/// All acts, and the giving of each packet to each member.
fn candidates(alloc: Global, acts: u32, sent: u32, members: u8) -> Result<Vec<Choice>, AllocError>
    ensures { IfOk result (λ all. AreAll acts sent members all.items) }
{
    let mut all = Vec::new(alloc);
    for index in 0..acts {
        all.push(Choice::Act(index))?;
    }
    for packet in 0..sent {
        push_gives(&mut all, packet + 1, members)?;
    }
    Ok(all)
}

/// Whether an event may come.
fn may_come<T: Trial>(
    alloc: Global,
    trial: &mut T,
    past: &[Choice],
    choice: Choice,
) -> Result<bool, AllocError>
    requires { MayFollow (T.family trial.old) [] (events_of (T.family trial.old) past.now) }
    ensures { AnswersMay (T.family trial.old) past.now choice (T.family trial.new) result }
{
    if !may_be(trial, past, choice) {
        return Ok(false);
    }
    trial.takes(alloc, past, choice)
}

/// The number of acts, if it isn't too high.
fn acts_count<T: Trial>(trial: &T) -> Result<u32, AllocError>
    ensures { IfOk result (λ count. count ≡ length (T.family trial.now).acts.events) }
{
    match u32::try_from(trial.acts().len()) {
        Ok(count) => Ok(count),
        Err(_) => Err(AllocError),
    }
}

/// Puts a choice after others, or not.
fn put_if(next: &mut Vec<Choice>, may: bool, choice: Choice) -> Result<(), AllocError>
    ensures { OnOk result (PutsIf may next.old.items choice next.new.items) }
{
    if may {
        next.push(choice)?;
    }
    Ok(())
}

/// The events that may come after these.
pub(crate) fn next<T: Trial>(
    alloc: Global,
    trial: &mut T,
    past: &[Choice],
) -> Result<Vec<Choice>, AllocError>
    requires { MayFollow (T.family trial.old) [] (events_of (T.family trial.old) past.now) }
    ensures { AnswersNext (T.family trial.old) past.now (T.family trial.new) result }
{
    let sent = trial.sent(alloc, past)?;
    let acts = acts_count(trial)?;
    let members = trial.members();
    let mut all = candidates(alloc, acts, sent, members)?;
    let mut next = Vec::new(alloc);
    while let Some(choice) = all.pop() {
        let may = may_come(alloc, trial, past, choice)?;
        put_if(&mut next, may, choice)?;
    }
    Ok(next)
}

//! The script of the events of choices.

ghost use Rattle.std.specs.Prelude.{◌≡◌, IfOk, map};
ghost use Rattle.family_group.specs.Playing.{script_in};
ghost use Rattle.family_search.specs.Trying.{event_in};

use family_search::Choice;
use script_mean::{Bytes, Events, Script, ScriptEvent};
use std::alloc::{AllocError, Global};

/// A copy of bytes.
fn copy_of(alloc: Global, bytes: &[u8]) -> Result<Bytes, AllocError>
    ensures { IfOk result (λ copy. copy ≡ bytes.now) }
{
    let mut copy = Vec::with_capacity(alloc, bytes.len())?;
    copy.extend_from_slice(bytes)?;
    Ok(Bytes::of(copy))
}

/// A copy of an event.
fn event_of(alloc: Global, event: &ScriptEvent) -> Result<ScriptEvent, AllocError>
    ensures { IfOk result (λ copy. copy ≡ event.now) }
{
    let copy = match event {
        ScriptEvent::Cast(id, body) => ScriptEvent::Cast(*id, copy_of(alloc, body.slice())?),
        ScriptEvent::Send(id, to, body) => {
            ScriptEvent::Send(*id, *to, copy_of(alloc, body.slice())?)
        }
        ScriptEvent::Leave(id) => ScriptEvent::Leave(*id),
        ScriptEvent::Tick(id, moment) => ScriptEvent::Tick(*id, *moment),
        ScriptEvent::Give(packet, id) => ScriptEvent::Give(*packet, *id),
        ScriptEvent::Raw(id, bytes) => ScriptEvent::Raw(*id, copy_of(alloc, bytes.slice())?),
        ScriptEvent::Show(id) => ScriptEvent::Show(*id),
    };
    Ok(copy)
}

/// The event of a choice.
fn chosen(alloc: Global, acts: &[ScriptEvent], choice: Choice) -> Result<ScriptEvent, AllocError>
    ensures { IfOk result (λ event. event ≡ event_in acts.now choice) }
{
    match choice {
        Choice::Act(index) => match acts.get(index as usize) {
            Some(event) => event_of(alloc, event),
            None => Ok(ScriptEvent::Show(0)),
        },
        Choice::Give(packet, member) => Ok(ScriptEvent::Give(packet, member)),
    }
}

/// The events of choices.
fn events_of(
    alloc: Global,
    acts: &[ScriptEvent],
    past: &[Choice],
) -> Result<Vec<ScriptEvent>, AllocError>
    ensures { IfOk result (λ events. events.items ≡ map (event_in acts.now) past.now) }
{
    let mut events = Vec::with_capacity(alloc, past.len())?;
    for choice in past {
        let event = chosen(alloc, acts, *choice)?;
        events.push(event)?;
    }
    Ok(events)
}

/// The script of the events of choices, in the group of a script whose events are the acts.
pub fn script_with(alloc: Global, acts: &Script, past: &[Choice]) -> Result<Script, AllocError>
    ensures { IfOk result (λ script. script ≡ script_in acts.now past.now) }
{
    let events = events_of(alloc, acts.events.slice(), past)?;
    Ok(Script {
        group: acts.group,
        stamp: acts.stamp,
        members: acts.members,
        events: Events::of(events),
    })
}

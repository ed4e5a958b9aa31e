//! The call that tells what came out.

ghost use Rattle.std.specs.Prelude.{◌≡◌};
ghost use Rattle.peer_handle.specs.Told.{CallTells, NextCalls, change_head, event_with, no_head, told_event};
ghost use Rattle.peer_handle.specs.Told.{told_number};

use crate::event::ToldEvent;
use crate::handle::{Handle, take};
use crate::machine::Machine;
use crate::steps::CLOSED;
use group_peer::{Head, Told};
use std::alloc::Global;
use view_core::Change;

/// An output of so many bytes.
fn event_with(head: Head, count: usize) -> ToldEvent
    ensures { result ≡ event_with head count }
{
    ToldEvent {
        kind: head.kind,
        peer: head.peer,
        to: head.to,
        number: head.number,
        plan: head.plan,
        length: count,
    }
}

/// A kind without numbers.
fn no_head(kind: u32) -> Head
    ensures { result ≡ no_head kind }
{
    Head {
        kind,
        peer: 0,
        to: 0,
        number: 0,
        plan: 0,
    }
}

/// Where a member is since a step.
fn change_head(change: Change) -> Head
    ensures { result ≡ change_head change }
{
    match change {
        Change::Into(view) => Head {
            kind: 9,
            peer: 0,
            to: view.mask,
            number: view.ltime,
            plan: 0,
        },
        Change::Out => no_head(10),
    }
}

/// What is told, in numbers.
fn told_event(told: Told) -> ToldEvent
    ensures { result ≡ told_event told }
{
    match told {
        Told::Output(head, count) => event_with(head, count),
        Told::NoRoom(count) => event_with(no_head(0), count),
        Told::Changed(change) => event_with(change_head(change), 0),
        Told::Nothing => event_with(no_head(0), 0),
    }
}

/// The status where this is told.
fn told_number(told: Told) -> u32
    ensures { result ≡ told_number told }
{
    match told {
        Told::Output(_, _) => 1,
        Told::NoRoom(_) => 2,
        Told::Changed(_) => 1,
        Told::Nothing => 0,
    }
}

/// The member at work tells its next output.
fn tell_machine(machine: &mut Machine, event: &mut ToldEvent, room: &mut [u8]) -> u32
    ensures { CallTells machine.old.peer machine.new.peer room.old room.new event.new result }
{
    let told = machine.peer.tell(room);
    *event = told_event(told);
    told_number(told)
}

/// The handle's member tells the next output of its last step, with its bytes at the beginning of the room; after the
/// last, where it is since.
pub fn next(alloc: Global, h: &mut Handle, event: &mut ToldEvent, room: &mut [u8]) -> u32
    ensures { NextCalls h.old.seal.value h.new.seal.value event.old event.new room.old room.new result }
{
    if !h.full {
        return CLOSED;
    }
    let mut machine = take(alloc, h);
    let status = tell_machine(&mut machine, event, room);
    *h = Handle::of(machine);
    status
}

//! What C calls.

ghost use Rattle.run_mean.specs.Member as member;
ghost use Rattle.peer_handle.specs.Calls.{Calls, Closes};
ghost use Rattle.juqhanep.specs.Opening.{CallOpens};
ghost use Rattle.peer_handle.specs.Told.{NextCalls};

use peer_handle::{Handle, Order, ToldEvent, ToldFault, close, next, open, opening_number, step};
use script_mean::GroupLine;
use std::alloc::Global;
use view_core::Input;

/// Opens member `me` of a group of `members`, over the stack that the bytes of a layer file mean, in the group's first
/// view. If the file is refused, `fault` and `sentence` tell why.
#[unsafe(no_mangle)]
pub extern "C" fn juq_open(
    alloc: Global,
    h: &mut Handle,
    layers: &[u8],
    bypass: bool,
    group: u32,
    stamp: u32,
    members: u8,
    me: u8,
    fault: &mut ToldFault,
    sentence: &mut [u8],
) -> u32
    ensures { CallOpens
        (record { text = layers.now; bypass = bypass; group = group; stamp = stamp; members = members; id = me })
        h.old.seal.value h.new.seal.value fault.old fault.new sentence.old sentence.new result }
{
    let order = Order {
        layers,
        bypass,
        line: GroupLine {
            group,
            stamp,
            members,
        },
        id: me,
    };
    opening_number(open(alloc, h, order, fault, sentence))
}

/// The application of the handle's member casts a body: one step.
#[unsafe(no_mangle)]
pub extern "C" fn juq_cast(alloc: Global, h: &mut Handle, body: &[u8]) -> u32
    ensures { Calls (member.cast body.now) h.old.seal.value h.new.seal.value result }
{
    step(alloc, h, Input::Cast(body))
}

/// The application of the handle's member sends a body to a rank: one step.
#[unsafe(no_mangle)]
pub extern "C" fn juq_send(alloc: Global, h: &mut Handle, to: u32, body: &[u8]) -> u32
    ensures { Calls (member.send to body.now) h.old.seal.value h.new.seal.value result }
{
    step(alloc, h, Input::Send(to, body))
}

/// The application of the handle's member asks to leave: one step.
#[unsafe(no_mangle)]
pub extern "C" fn juq_leave(alloc: Global, h: &mut Handle) -> u32
    ensures { Calls member.leave h.old.seal.value h.new.seal.value result }
{
    step(alloc, h, Input::Leave)
}

/// The clock of the handle's member shows a moment: one step.
#[unsafe(no_mangle)]
pub extern "C" fn juq_tick(alloc: Global, h: &mut Handle, moment: u32) -> u32
    ensures { Calls (member.tick moment) h.old.seal.value h.new.seal.value result }
{
    step(alloc, h, Input::Tick(moment))
}

/// A datagram came for the handle's member: one step.
#[unsafe(no_mangle)]
pub extern "C" fn juq_receive(alloc: Global, h: &mut Handle, datagram: &[u8]) -> u32
    ensures { Calls (member.datagram datagram.now) h.old.seal.value h.new.seal.value result }
{
    step(alloc, h, Input::Datagram(datagram))
}

/// Tells the next output of the last step of the handle's member, with its bytes at the beginning of the room; after
/// the last, where the member is since.
#[unsafe(no_mangle)]
pub extern "C" fn juq_next(
    alloc: Global,
    h: &mut Handle,
    event: &mut ToldEvent,
    room: &mut [u8],
) -> u32
    ensures { NextCalls h.old.seal.value h.new.seal.value event.old event.new room.old room.new result }
{
    next(alloc, h, event, room)
}

/// Ends the handle's member, and gives its memory back.
#[unsafe(no_mangle)]
pub extern "C" fn juq_close(alloc: Global, h: &mut Handle) -> u32
    ensures { Closes h.old.seal.value h.new.seal.value result }
{
    close(alloc, h)
}

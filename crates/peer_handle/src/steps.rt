//! The calls that are steps.

ghost use Rattle.std.specs.Prelude.{◌≡◌, None};
ghost use Rattle.view_core.specs.Steps.{input_meant};
ghost use Rattle.peer_handle.specs.Calls.{CallTook, Closes, Calls, answer_number, refusal_number, stray_number};

use crate::handle::{Handle, take};
use crate::machine::Machine;
use msg_core::Stray;
use std::alloc::Global;
use view_core::{Input, Refusal, Stepped};

/// The status where a handle has no member.
pub(crate) const CLOSED: u32 = 16;

/// The number of a cause for which a datagram is refused.
fn stray_number(cause: Stray) -> u32
    ensures { result ≡ stray_number cause }
{
    match cause {
        Stray::Short => 32,
        Stray::Form => 33,
        Stray::Group => 34,
        Stray::Stamp => 35,
        Stray::View => 36,
        Stray::Sender => 37,
        Stray::Dest => 38,
        Stray::Plan => 39,
        Stray::Chain => 40,
        Stray::Body => 41,
    }
}

/// The number of a reason for which an input is refused.
fn refusal_number(reason: Refusal) -> u32
    ensures { result ≡ refusal_number reason }
{
    match reason {
        Refusal::Out => 17,
        Refusal::TooBig => 18,
        Refusal::Stray(cause) => stray_number(cause),
    }
}

/// The number of a member's answer.
fn answer_number(stepped: Stepped) -> u32
    ensures { result ≡ answer_number stepped }
{
    match stepped {
        Stepped::Taken { common, change: _ } => { if common { 1 } else { 0 } }
        Stepped::Refused(reason) => refusal_number(reason),
    }
}

/// The member at work takes an input.
fn step_machine(machine: &mut Machine, input: Input<'_>) -> u32
    ensures { CallTook (input_meant input.entry) machine.old.peer machine.new.peer result }
{
    let stepped = machine.peer.step(input);
    answer_number(stepped)
}

/// The handle's member takes an input: one step. What the step before gave and wasn't told is let go.
pub fn step(alloc: Global, h: &mut Handle, input: Input<'_>) -> u32
    ensures { Calls (input_meant input.entry) h.old.seal.value h.new.seal.value result }
{
    if !h.full {
        return CLOSED;
    }
    let mut machine = take(alloc, h);
    let status = step_machine(&mut machine, input);
    *h = Handle::of(machine);
    status
}

/// Ends the handle's member, and gives its memory back.
pub fn close(alloc: Global, h: &mut Handle) -> u32
    ensures { Closes h.old.seal.value h.new.seal.value result }
{
    if !h.full {
        return CLOSED;
    }
    drop(take(alloc, h));
    0
}

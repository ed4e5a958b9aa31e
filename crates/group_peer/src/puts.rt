//! Bytes that are put into a room.

ghost use Rattle.std.specs.Prelude.{◌≡◌, ◌≤◌, [], vec_capacity};
ghost use Rattle.packet_full.specs.Sent.{sent_packet};
ghost use Rattle.packet_short.specs.Shortened.{short_room};
ghost use Rattle.run_mean.specs.Common.{wire};
ghost use Rattle.stack_shapes.specs.Trees.{plans_tree};
ghost use Rattle.step_outputs.specs.Views.{output_meant};
ghost use Rattle.group_peer.specs.Heads.{Puts, bytes_of, room_of};

use crate::told::Put;
use packet_full::{PacketView, put_full_of};
use packet_mean::Here;
use packet_short::put_short;
use stack_shapes::Plans;
use step_outputs::OutputView;

/// Puts bytes at the beginning of a room, if it has room for them.
fn put(bytes: &[u8], room: &mut [u8]) -> Put
    ensures { Puts bytes.now room.old room.new result }
{
    let count = bytes.len();
    if room.len() < count {
        return Put::Short(count);
    }
    room[..count].copy_from_slice(bytes);
    Put::Fits(count)
}

/// Puts no bytes.
fn put_none(room: &mut [u8]) -> Put
    ensures { Puts [] room.old room.new result }
{
    let _count = room.len();
    Put::Fits(0)
}

/// Spells a packet as it is sent, in place of what a vector holds: short under its plan, where it has one and there is
/// such a plan, and else in full.
fn spell(plans: &Plans, here: &Here, packet: &PacketView<'_>, into: &mut Vec<u8>)
    requires { short_room (sent_packet here.now packet.now.dest packet.now.headers.now packet.now.body.now) ≤
        vec_capacity into.old }
    ensures items { into.new.items ≡ wire (plans_tree plans.now)
        (sent_packet here.now packet.now.dest packet.now.headers.now packet.now.body.now) packet.now.plan }
    ensures capacity { vec_capacity into.old ≤ vec_capacity into.new }
{
    into.clear();
    if let Some(number) = packet.plan {
        if let Some(plan) = plans.get(number) {
            put_short(plan, number, here, packet, into);
            return;
        }
    }
    put_full_of(here, packet.dest, packet.headers, packet.body, into);
}

/// Puts a packet as it is sent, which is spelled in a vector first.
fn put_packet(
    plans: &Plans,
    here: &Here,
    packet: &PacketView<'_>,
    scratch: &mut Vec<u8>,
    room: &mut [u8],
) -> Put
    requires { short_room (sent_packet here.now packet.now.dest packet.now.headers.now packet.now.body.now) ≤
        vec_capacity scratch.old }
    ensures puts { Puts (wire (plans_tree plans.now)
        (sent_packet here.now packet.now.dest packet.now.headers.now packet.now.body.now) packet.now.plan)
        room.old room.new result }
    ensures capacity { vec_capacity scratch.old ≤ vec_capacity scratch.new }
{
    spell(plans, here, packet, scratch);
    put(scratch, room)
}

/// Puts the bytes of an output.
pub(crate) fn put_bytes(
    plans: &Plans,
    here: &Here,
    output: &OutputView<'_>,
    scratch: &mut Vec<u8>,
    room: &mut [u8],
) -> Put
    requires { room_of (output_meant here.now output.now) ≤ vec_capacity scratch.old }
    ensures puts { Puts (bytes_of (plans_tree plans.now) (output_meant here.now output.now)) room.old room.new result }
    ensures capacity { vec_capacity scratch.old ≤ vec_capacity scratch.new }
{
    match output {
        OutputView::Cast(_, body) => put(body, room),
        OutputView::Send(_, body) => put(body, room),
        OutputView::Packet(packet) => put_packet(plans, here, packet, scratch, room),
        OutputView::Block(_) => put_none(room),
        OutputView::Announce(_) => put_none(room),
        OutputView::Timer(_) => put_none(room),
        OutputView::Nowhere(_) => put_none(room),
        OutputView::Quiet(_, _) => put_none(room),
    }
}

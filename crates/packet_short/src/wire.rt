//! Packets as they are sent.

ghost use Rattle.std.specs.Prelude.{◌≡◌, ◌+◌, ◌≤◌, ◌++◌, Some, vec_len, vec_capacity};
ghost use Rattle.packet_full.specs.Sent.{sent_packet};
ghost use Rattle.packet_mean.specs.declared.here.Here.{Here};
ghost use Rattle.packet_short.specs.Shortened.{short_room};
ghost use Rattle.run_mean.specs.Common.{wire};
ghost use Rattle.stack_shapes.specs.Trees.{plans_tree};

use crate::write::{put_short, short_room_of};
use packet_full::{PacketView, put_full_of};
use packet_mean::Here;
use stack_shapes::Plans;

/// Puts a packet under the plan of a number: short where there is such a plan, and else in full. The packet is told
/// anew for a short form: lent as it is, what is told of each output would lie in memory wherever packets are picked
/// out.
#[inline(always)]
fn put_under(plans: &Plans, number: u8, here: &Here, packet: &PacketView<'_>, into: &mut Vec<u8>)
    requires { vec_len into.old + short_room
        (sent_packet here.now packet.now.dest packet.now.headers.now packet.now.body.now) ≤ vec_capacity into.old }
    ensures { into.new.items ≡ into.old.items
        ++ wire (plans_tree plans.now) (sent_packet here.now packet.now.dest packet.now.headers.now packet.now.body.now)
        (Some number) }
{
    match plans.get(number) {
        Some(plan) => {
            let sent = PacketView {
                dest: packet.dest,
                headers: packet.headers,
                body: packet.body,
                plan: packet.plan,
            };
            put_short(plan, number, here, &sent, into);
        }
        None => put_full_of(here, packet.dest, packet.headers, packet.body, into),
    }
}

/// Puts a packet as it is sent after what a vector holds: short under its plan, where it has one and there is such a
/// plan, and else in full. It takes no memory: there must be room for 17 bytes of each header, the body and 20 more.
#[inline(always)]
pub fn put_wire(plans: &Plans, here: &Here, packet: &PacketView<'_>, into: &mut Vec<u8>)
    requires { vec_len into.old + short_room
        (sent_packet here.now packet.now.dest packet.now.headers.now packet.now.body.now) ≤ vec_capacity into.old }
    ensures { into.new.items ≡ into.old.items
        ++ wire (plans_tree plans.now) (sent_packet here.now packet.now.dest packet.now.headers.now packet.now.body.now)
        packet.now.plan }
{
    match packet.plan {
        Some(number) => put_under(plans, number, here, packet, into),
        None => put_full_of(here, packet.dest, packet.headers, packet.body, into),
    }
}

/// How much room a packet is given as it is sent.
#[inline(always)]
pub fn wire_room_of(packet: &PacketView<'_>) -> usize
    ensures { (here : Here) →
        result ≡ short_room (sent_packet here packet.now.dest packet.now.headers.now packet.now.body.now) }
{
    short_room_of(packet.headers, packet.body)
}

//! Packets as they are sent.

ghost use Rattle.std.specs.Prelude.{◌≡◌, OnOk};
ghost use Rattle.packet_full.specs.Sent.{sent_packet};
ghost use Rattle.run_mean.specs.Common.{wire};
ghost use Rattle.stack_shapes.specs.Trees.{plans_tree};

use msg_core::Memory;
use packet_full::PacketView;
use packet_mean::Here;
use packet_short::{put_wire, wire_room_of};
use stack_shapes::Plans;

/// Spells a packet as it is sent, in place of what a vector holds: short under its plan, where it has one and there is
/// such a plan, and else in full.
pub fn spell(
    bytes: &mut Vec<u8>,
    plans: &Plans,
    here: &Here,
    packet: &PacketView<'_>,
) -> Result<(), Memory>
    ensures { OnOk result (bytes.new.items
        ≡ wire (plans_tree plans.now) (sent_packet here.now packet.now.dest packet.now.headers.now packet.now.body.now)
        packet.now.plan) }
{
    bytes.clear();
    bytes.reserve(wire_room_of(packet))?;
    put_wire(plans, here, packet, bytes);
    Ok(())
}

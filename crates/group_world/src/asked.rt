//! What the events of a script give to members.

ghost use Rattle.std.specs.Prelude.{◌≡◌, List};
ghost use Rattle.group_feed.specs.Standing.{SpellPackets};
ghost use Rattle.layer_mean.specs.Tree.{LayerTree};
ghost use Rattle.run_mean.specs.World as mean;
ghost use Rattle.script_mean.specs.Event.{member_of};
ghost use Rattle.stack_mean.specs.Plan.{Plan};
ghost use Rattle.group_world.specs.Asking.{Asks, IsFor};

use crate::packets::Packets;
use script_mean::ScriptEvent;
use view_core::Input;

/// What an event gives: a member an input; or no packet, where there isn't the one that is given; or nothing, where a
/// member is only shown.
#[derive(Drop)]
pub(crate) enum Asked<'a> {
    Step(u8, Input<'a>),
    Absent,
    Shown,
}

/// A packet that is given to a member comes as the datagram in which it was sent, if there is such a packet.
#[inline(always)]
fn given_packet<'a>(packets: &'a Packets, number: u32, id: u8) -> Asked<'a>
    ensures member { IsFor id result }
    ensures asks { (stack : List LayerTree) (plans : List Plan) (w : mean.World) →
        SpellPackets stack plans packets.now w.packets →
        Asks stack plans w (mean.given_packet stack plans w id (mean.packet_number w number)) result }
{
    match packets.numbered(number) {
        Some(datagram) => Asked::Step(id, Input::Datagram(datagram)),
        None => Asked::Absent,
    }
}

/// The member of an event of a script, and the input that it is given, if it is given one.
#[inline(always)]
#[tactic(auto, unfolding(run_mean::specs::World::happens))]
pub(crate) fn input_of<'a>(event: &'a ScriptEvent, packets: &'a Packets) -> Asked<'a>
    ensures member { IsFor (member_of event.now) result }
    ensures asks { (stack : List LayerTree) (plans : List Plan) (w : mean.World) →
        SpellPackets stack plans packets.now w.packets →
        Asks stack plans w (mean.happens stack plans w event.now) result }
{
    match event {
        ScriptEvent::Cast(id, body) => Asked::Step(*id, Input::Cast(body.slice())),
        ScriptEvent::Send(id, to, body) => Asked::Step(*id, Input::Send(*to, body.slice())),
        ScriptEvent::Leave(id) => Asked::Step(*id, Input::Leave),
        ScriptEvent::Tick(id, moment) => Asked::Step(*id, Input::Tick(*moment)),
        ScriptEvent::Give(number, id) => given_packet(packets, *number, *id),
        ScriptEvent::Raw(id, bytes) => Asked::Step(*id, Input::Datagram(bytes.slice())),
        ScriptEvent::Show(_) => Asked::Shown,
    }
}

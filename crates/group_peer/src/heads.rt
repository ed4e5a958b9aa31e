//! Outputs in numbers.

ghost use Rattle.std.specs.Prelude.{◌≡◌};
ghost use Rattle.step_outputs.specs.Views.{output_meant};
ghost use Rattle.group_peer.specs.Heads.{head, head_of, plan_number};

use crate::receivers::receivers;
use crate::told::Head;
use packet_mean::Here;
use step_outputs::OutputView;

/// The number of a plan, counted from 1.
fn plan_number(plan: Option<u8>) -> u32
    ensures { result ≡ plan_number plan }
{
    match plan {
        Some(k) => u32::from(k) + 1,
        None => 0,
    }
}

/// These numbers.
fn head(kind: u32, peer: u32, to: u32, number: u32, plan: u32) -> Head
    ensures { result ≡ head kind peer to number plan }
{
    Head {
        kind,
        peer,
        to,
        number,
        plan,
    }
}

/// The numbers of an output of the member of this id that is here.
pub(crate) fn head_of(here: &Here, id: u8, output: &OutputView<'_>) -> Head
    ensures { result ≡ head_of id (output_meant here.now output.now) }
{
    match output {
        OutputView::Cast(peer, _) => head(1, *peer, 0, 0, 0),
        OutputView::Send(peer, _) => head(2, *peer, 0, 0, 0),
        OutputView::Block(a) => head(3, 0, 0, *a, 0),
        OutputView::Announce(ranks) => head(4, 0, *ranks, 0, 0),
        OutputView::Timer(moment) => head(5, 0, 0, *moment, 0),
        OutputView::Packet(packet) => head(
            6,
            0,
            receivers(here.view, id, packet.dest),
            0,
            plan_number(packet.plan),
        ),
        OutputView::Nowhere(_) => head(7, 0, 0, 0, 0),
        OutputView::Quiet(_, _) => head(8, 0, 0, 0, 0),
    }
}

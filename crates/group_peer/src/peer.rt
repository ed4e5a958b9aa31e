//! A member with the outputs of its last step.

ghost use Rattle.std.specs.Prelude.{◌≡◌, ◌≤◌, length, vec_capacity};
ghost use Rattle.std.specs.Rc.{rc_value};
ghost use Rattle.std.proofs.Props.{props};
ghost use Rattle.msg_core.specs.Headers.{most_places};
ghost use Rattle.packet_mean.specs.ChainedState.{IsNumber};
ghost use Rattle.stack_mean.specs.Acceptance.{largest_weight};
ghost use Rattle.stack_shapes.specs.Trees.{plans_tree};
ghost use Rattle.group_peer.specs.Standing.{AreShort, HasFewFields, most_room, plans_prop, short_prop};

use group_member::Member;
use stack_shapes::Plans;
use std::rc::Rc;
use step_outputs::Outputs;
use view_core::Change;

/// A member of a group, with the outputs of its last step.
pub struct Peer {
    pub(crate) member: Member,
    pub(crate) id: u8,
    pub(crate) plans: Rc<Plans>,
    pub(crate) outputs: Outputs,
    /// How many of them were told.
    pub(crate) next: usize,
    /// Where the member is since the step, if it installed something and that wasn't told yet.
    pub(crate) change: Option<Change>,
    /// Where a datagram is spelled.
    pub(crate) bytes: Vec<u8>,
    ghost id_is: { member.id ≡ id },
    ghost plans_are: { plans_tree (rc_value plans) ≡ member.plans } by { plans_prop },
    ghost few_places: { length member.stack ≤ most_places },
    ghost few_fields: { HasFewFields member.stack } by { Prim.hlevel props },
    ghost group: { IsNumber member.group },
    ghost stamp: { IsNumber member.stamp },
    ghost places: { outputs.places ≡ largest_weight member.stack },
    ghost short: { AreShort member.plans outputs.outputs } by { short_prop member.plans outputs.outputs },
    ghost room: { most_room ≤ vec_capacity bytes },
}

impl Drop for Peer {
    fn drop(self) {
        let Peer {
            member,
            id: _,
            plans: _,
            outputs: _,
            next: _,
            change: _,
            bytes: _,
        } = self;
        member.close();
    }
}

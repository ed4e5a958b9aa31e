//! The members of a group, as they are opened and let go.

ghost use Rattle.std.specs.Prelude.{◌^◌, ◌≤◌};
ghost use Rattle.live_layer.specs.Making.{making};
ghost use Rattle.group_member.specs.Opening.{CanOpen};
ghost use Rattle.group_world.specs.Opening.{OpensAll};
ghost use Rattle.group_world.specs.Restarting.{RestartsAll};
ghost use Rattle.msg_core.specs.View.{most_members};

use group_member::{Member, OpenError, Opening};
use live_layer::Maker;
use msg_core::MOST_MEMBERS;
use std::alloc::Global;
use view_masks::first_view;

/// Opens the members of a group, in the first view. On an error none is left open.
pub fn open_all(
    alloc: Global,
    maker: &mut Maker,
    opening: Opening<'_>,
    n: u8,
) -> Result<Vec<Member>, OpenError>
    requires opening { CanOpen (2 ^ 61) (making maker.old) opening }
    requires members { (1 ≤ n) × (n ≤ most_members) }
    ensures { OpensAll opening.entry n (making maker.old) (making maker.new) result }
{
    let view = first_view(n);
    let mut members = Vec::with_capacity(alloc, usize::from(n))?;
    opening.stack.law_within_limits();
    for id in 0..n {
        match Member::begin(alloc, maker, opening, view, id) {
            Ok(member) => members.push_reserved(member),
            Err(error) => {
                close_all(members);
                return Err(error);
            }
        }
    }
    Ok(members)
}

/// Lets members begin again in the first view of as many, and answers whether all did. Where one doesn't, those before
/// it have.
pub fn restart_all(members: &mut Vec<Member>) -> bool
    ensures { RestartsAll members.old.items members.new.items result }
{
    let count = members.len();
    if count > usize::from(MOST_MEMBERS) {
        return false;
    }
    let view = first_view(count as u8);
    for id in 0..count {
        let member = &mut members[id];
        if !member.restart(view) {
            return false;
        }
    }
    true
}

/// Lets go of members.
pub fn close_all(mut members: Vec<Member>) {
    while let Some(member) = members.pop() {
        member.close();
    }
    members.destroy_empty();
}

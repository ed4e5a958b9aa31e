//! What a step works over, and what it gives.

ghost use Rattle.std.specs.Prelude.{◌≡◌, ◌<◌, Some, option_map};
ghost use Rattle.std.specs.Rc.{rc_value};
ghost use Rattle.msg_core.specs.View as members;
ghost use Rattle.msg_core.specs.declared.packet.View.{View};
ghost use Rattle.group_member.specs.After.{rank_of, view_after};
ghost use Rattle.group_member.specs.Placing.{IsCountIn, IsRankIn};

use code_table::Codes;
use msg_core::{Headers, View};
use packet_mean::Here;
use stack_judge::Stack;
use stack_shapes::{EntryShapes, PlanStarts, Plans};
use std::rc::Rc;
use view_core::Change;
use view_masks::{member_count, rank};

/// What a member in a view works over: its stack with what is known of it, the code by which it runs, if any, a list of
/// no headers, where it stands, how many members its view has, its id, and how many members its first view had.
#[derive(Drop)]
pub(crate) struct Ground<'a> {
    pub(crate) stack: &'a Stack,
    pub(crate) plans: &'a Plans,
    pub(crate) entries: &'a Rc<EntryShapes>,
    pub(crate) starts: &'a PlanStarts,
    pub(crate) codes: Option<&'a Codes>,
    pub(crate) bare: &'a Headers,
    pub(crate) here: &'a Here,
    pub(crate) count: u32,
    pub(crate) id: u8,
    pub(crate) most: u8,
}

/// Whether a step was a common one, and where the member is after it, if it installed something.
#[derive(Clone, Copy)]
pub(crate) struct Took {
    pub(crate) common: bool,
    pub(crate) change: Option<Change>,
}

/// The rank of a member in a view; 0 if the member isn't in the view.
#[inline(never)]
pub(crate) fn rank_in(view: View, id: u8) -> u8
    ensures rank { result ≡ rank_of view id }
    ensures few { result < members.most_members }
{
    let _members = member_count(view);
    match rank(view, id) {
        Some(rank) => rank,
        None => 0,
    }
}

/// The view that a member is in, its rank in it, and how many members it has, become those after a change, if there was
/// one.
#[inline(always)]
pub(crate) fn follow(
    view: &mut Option<View>,
    rank: &mut u8,
    count: &mut u32,
    id: u8,
    change: Option<Change>,
)
    ensures view { (before : View) → view.old ≡ Some before → view.new ≡ view_after before change }
    ensures rank { IsRankIn view.old id rank.old → IsRankIn view.new id rank.new }
    ensures count { IsCountIn view.old count.old → IsCountIn view.new count.new }
{
    match change {
        Some(Change::Into(next)) => {
            *view = Some(next);
            *rank = rank_in(next, id);
            *count = member_count(next);
        }
        Some(Change::Out) => *view = None,
        None => {}
    }
}

/// The code that a member keeps, if any.
pub(crate) fn lent(codes: &Option<Rc<Codes>>) -> Option<&Codes>
    ensures { option_map (λ codes. codes.now) result ≡ option_map rc_value codes.now }
{
    match codes {
        Some(codes) => Some(codes),
        None => None,
    }
}

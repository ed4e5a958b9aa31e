//! Members that come into a view.

ghost use Rattle.std.specs.Prelude.{◌<◌, ◌≤◌, map, slice_get};
ghost use Rattle.std.specs.List.{AllByRecursion, filter_map, flat_map};
ghost use Rattle.stack_judge.specs.Answer.{stack_tree};
ghost use Rattle.live_layer.specs.Layer.{refs_of, IsInOrder, state_in};
ghost use Rattle.run_mean.specs.Member.{announced_ranks};
ghost use Rattle.slot_pool.specs.References.{Covers};
ghost use Rattle.group_member.specs.Stepping.{stack_of};
ghost use Rattle.group_member.specs.Viewing.{Anew, HasMembers, Installs, Changes};
ghost use Rattle.group_member.specs.Working.{states_in, IsReady};

use crate::ground::Ground;
use crate::works::Works;
use cell_store::Membership;
use live_layer::FileLayer;
use msg_core::View;
use slot_pool::Pool;
use stack_judge::Stack;
use step_outputs::Outputs;
use view_core::Change;
use view_masks::{member_count, next_view, rank};

/// A member in a view that others may follow: its stack, how many members its first view had, the view, and its id.
#[derive(Clone, Copy)]
pub(crate) struct Seat<'a> {
    pub(crate) stack: &'a Stack,
    pub(crate) most: u8,
    pub(crate) view: View,
    pub(crate) id: u8,
}

/// Begins again with each layer, at a member of a view of no more members than there were.
pub(crate) fn reset_all(layers: &mut Vec<FileLayer>, pool: &mut Pool, membership: Membership)
    requires order { AllByRecursion (IsInOrder pool.old) layers.old.items }
    requires covers { Covers pool.old (flat_map refs_of layers.old.items) }
    requires member { membership.me < membership.count }
    requires room { AllByRecursion (λ s. membership.count ≤ s.count) (map (state_in pool.old) layers.old.items) }
    ensures { Anew membership.me membership.count membership.ltime pool.old pool.new layers.old.items
        layers.new.items }
{
    for index in 0..layers.len() {
        let layer = &mut layers[index];
        let _members = layer.count();
        layer.reset(pool, membership);
    }
}

/// Installs the view after a member's own, made of these ranks, if there is such a view and the member is in it.
#[inline(never)]
fn install(works: &mut Works, seat: Seat<'_>, ranks: u32) -> Change
    requires ready { IsReady (stack_tree seat.stack.now) seat.most works.old }
    requires members { HasMembers (stack_tree seat.stack.now) seat.most seat.view seat.id
        (states_in works.old) }
    ensures { Installs (stack_tree seat.entry.stack.now) seat.entry.most seat.entry.view seat.entry.id ranks works.old
        works.new result }
{
    let Some(next) = next_view(seat.view, ranks) else {
        return Change::Out
    };
    let Some(me) = rank(next, seat.id) else {
        return Change::Out
    };
    let membership = Membership {
        me: u32::from(me),
        count: member_count(next),
        ltime: next.ltime,
    };
    reset_all(&mut works.layers, &mut works.pool, membership);
    Change::Into(next)
}

/// Installs the first view that was announced, if one was. Where the member sits is said in this case alone: a ground
/// that is lent would lie in memory at each step.
#[inline(always)]
pub(crate) fn change_view(works: &mut Works, ground: &Ground<'_>, out: &Outputs) -> Option<Change>
    requires ready { IsReady (stack_of ground.now) ground.now.most works.old }
    requires members { HasMembers (stack_of ground.now) ground.now.most ground.now.here.now.view ground.now.id
        (states_in works.old) }
    ensures { Changes (stack_of ground.now) ground.now.most ground.now.here.now.view ground.now.id
        (slice_get (filter_map announced_ranks (map (λ o. o.0) out.now.outputs)) 0)
        works.old works.new result }
{
    match out.first_announced() {
        Some(ranks) => {
            let seat = Seat {
                stack: ground.stack,
                most: ground.most,
                view: ground.here.view,
                id: ground.id,
            };
            Some(install(works, seat, ranks))
        }
        None => None,
    }
}

//! Members that begin again.

ghost use Rattle.std.specs.Bool.{OnTrue};
ghost use Rattle.stack_judge.specs.Answer.{stack_tree};
ghost use Rattle.group_member.specs.Restarting.{AreAmong, BeginsAnew};
ghost use Rattle.group_member.specs.Working.{IsReady};

use crate::views::{Seat, reset_all};
use crate::works::Works;
use cell_store::Membership;
use live_layer::FileLayer;
use view_masks::{member_count, rank};

/// Whether each layer has at least this many members now.
fn are_among(layers: &[FileLayer], count: u32) -> bool
    ensures { OnTrue result (AreAmong count layers.now) }
{
    for layer in layers {
        let now = layer.count();
        if now < count {
            return false;
        }
    }
    true
}

/// Begins again in a view of no more members than there were at first, if each layer has as many now, and answers
/// whether it did.
pub(crate) fn restart_works(works: &mut Works, seat: Seat<'_>) -> bool
    requires { IsReady (stack_tree seat.stack.now) seat.most works.old }
    ensures { BeginsAnew (stack_tree seat.entry.stack.now) seat.entry.most seat.entry.view seat.entry.id works.old
        works.new result }
{
    let Some(me) = rank(seat.view, seat.id) else {
        return false;
    };
    let count = member_count(seat.view);
    if count > u32::from(seat.most) {
        return false;
    }
    if are_among(works.layers.as_slice(), count) {
        let membership = Membership {
            me: u32::from(me),
            count,
            ltime: seat.view.ltime,
        };
        reset_all(&mut works.layers, &mut works.pool, membership);
        return true;
    }
    false
}

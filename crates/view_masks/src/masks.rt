//! The mask of a view: a bit for each id.

ghost use Rattle.std.specs.Prelude.{◌≡◌, ◌==◌, ◌<◌, ◌≤◌, ◌-◌, ◌^◌, slice_get};
ghost use Rattle.std.specs.Int.{bit_at};
ghost use Rattle.msg_core.specs.View as members;
ghost use Rattle.msg_core.specs.View.{most_members};

use msg_core::{MOST_MEMBERS, View};

/// Whether a mask has an id; also, whether a number of ranks has a rank.
#[inline(always)]
pub fn has(mask: u32, id: u8) -> bool
    requires { id < most_members }
    ensures { result ≡ (bit_at mask id == 1) }
{
    mask >> id & 1 == 1
}

/// The mask of all members of a group of n.
pub fn all_of(n: u8) -> u32
    requires { n ≤ most_members }
    ensures { result ≡ 2 ^ n - 1 }
{
    ((1u64 << n) - 1) as u32
}

/// The first view of a group of n members: all of them.
pub fn first_view(n: u8) -> View
    requires { n ≤ most_members }
    ensures { result ≡ members.first_view n }
{
    View {
        ltime: 0,
        mask: all_of(n),
    }
}

/// How many members a view has.
pub fn member_count(view: View) -> u32
    ensures count { result ≡ members.member_count view }
    ensures few { result ≤ most_members }
{
    view.mask.count_ones()
}

/// The member of a rank in a view, if there is one.
pub fn member_at(view: View, rank: u8) -> Option<u8>
    ensures { result ≡ slice_get (members.ids view) rank }
{
    let mut left = rank;
    for id in 0..MOST_MEMBERS {
        if has(view.mask, id) {
            if left == 0 {
                return Some(id);
            }
            left -= 1;
        }
    }
    None
}

/// The rank of a member in a view: how many smaller ids it has. None exactly where the view doesn't have this id.
#[inline(always)]
pub fn rank(view: View, id: u8) -> Option<u8>
    ensures { result ≡ members.rank view id }
{
    let mut rank = 0;
    for other in 0..MOST_MEMBERS {
        if has(view.mask, other) {
            if other == id {
                return Some(rank);
            }
            rank += 1;
        }
    }
    None
}

/// The members of a view whose ranks are set in a number; further bits of the number say nothing.
fn mask_of(view: View, ranks: u32) -> u32
    ensures { result ≡ members.mask_of view ranks }
{
    let mut mask = 0;
    let mut rank: u8 = 0;
    for id in 0..MOST_MEMBERS {
        if has(view.mask, id) {
            if has(ranks, rank) {
                mask += 1 << id;
            }
            rank += 1;
        }
    }
    mask
}

/// The view after a view, with the members at the ranks that are set in a number. None exactly where the count of
/// views is at its end.
pub fn next_view(view: View, ranks: u32) -> Option<View>
    ensures { result ≡ members.next_view view ranks }
{
    let ltime = view.ltime.checked_add(1)?;
    Some(View {
        ltime,
        mask: mask_of(view, ranks),
    })
}

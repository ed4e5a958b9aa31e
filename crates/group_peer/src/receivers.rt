//! To whom a packet goes.

ghost use Rattle.std.specs.Prelude.{◌≡◌, ◌==◌, ◌&&◌, ◌<◌, ◌∷◌, [], not};
ghost use Rattle.std.specs.Int.{bit_at};
ghost use Rattle.msg_core.specs.View.{most_members};
ghost use Rattle.msg_core.specs.declared.packet.Dest.TheVariants.{All};
ghost use Rattle.run_mean.specs.Journal.{receivers};
ghost use Rattle.group_peer.specs.Heads.{bits_of};

use msg_core::{Dest, MOST_MEMBERS, View};
use view_masks::{has, member_at};

/// Whether a view has an id, and it isn't the sender's.
fn is_other(view: View, from: u8, id: u8) -> bool
    requires { id < most_members }
    ensures { result ≡ (bit_at view.mask id == 1) && not (id == from) }
{
    has(view.mask, id) && id != from
}

/// The other members of a view, as ids, each a bit.
fn others(view: View, from: u8) -> u32
    ensures { result ≡ bits_of (receivers from view All) }
{
    let mut mask = 0;
    for id in 0..MOST_MEMBERS {
        if is_other(view, from, id) {
            mask += 1 << id;
        }
    }
    mask
}

/// The bit of an id.
fn bit_of(id: u8) -> u32
    requires { id < most_members }
    ensures { result ≡ bits_of (id ∷ []) }
{
    1 << id
}

/// Those to whom a packet goes that a member sends in a view, as ids, each a bit.
pub(crate) fn receivers(view: View, from: u8, dest: Dest) -> u32
    ensures { result ≡ bits_of (receivers from view dest) }
{
    match dest {
        Dest::All => others(view, from),
        Dest::Rank(rank) => match member_at(view, rank) {
            Some(id) => bit_of(id),
            None => 0,
        },
    }
}

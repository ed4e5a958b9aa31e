//! The preamble of a datagram, and whether it is meant for a member.

ghost use Rattle.std.specs.Prelude.{◌≡◌, ◌==◌, ◌&&◌, ◌||◌, true, not, nat_lt, IfOk};
ghost use Rattle.msg_core.specs.View.{member_count as members_of};
ghost use Rattle.msg_core.specs.declared.packet.Dest.TheVariants as to;
ghost use Rattle.packet_mean.specs.Reading as reading;
ghost use Rattle.packet_mean.specs.Received as received;
ghost use Rattle.packet_mean.specs.Spelling.{full_form, short_form};
ghost use Rattle.packet_full.specs.Taking.{IsOwn, preamble_tree};

use msg_core::{Dest, Stray, View};
use packet_mean::Here;
use view_masks::member_count;

/// The first byte of a full spelling.
pub const FULL_FORM: u8 = 0xE5;

/// The first byte of a short spelling.
pub const SHORT_FORM: u8 = 0xE6;

/// The byte that stands for all members in place of a rank.
pub(crate) const EVERYONE: u8 = 0xFF;

/// How many bytes the preamble of a datagram has, in either form.
pub(crate) const PREAMBLE_BYTES: usize = 19;

/// The preamble of a datagram: what comes before its headers.
#[derive(Clone, Copy)]
pub struct Preamble {
    pub form: u8,
    pub group: u32,
    pub stamp: u32,
    pub view: View,
    pub sender: u8,
    pub dest: Dest,
}

impl Preamble {
    /// A preamble that nothing was read into: numbers of 0, to all.
    pub(crate) fn new() -> Preamble
        ensures { result ≡ record {
          form = 0;
          group = 0;
          stamp = 0;
          view = record { ltime = 0; mask = 0 };
          sender = 0;
          dest = to.All;
        } }
    {
        Preamble {
            form: 0,
            group: 0,
            stamp: 0,
            view: View { ltime: 0, mask: 0 },
            sender: 0,
            dest: Dest::All,
        }
    }
}

/// The destination that a byte names.
pub(crate) fn dest_of(byte: u8) -> Dest
    ensures { result ≡ reading.dest_of byte }
{
    if byte == EVERYONE {
        Dest::All
    } else {
        Dest::Rank(byte)
    }
}

/// Whether a byte is the first one of a spelling.
pub(crate) fn is_form(byte: u8) -> bool
    ensures { result ≡ (byte == full_form) || (byte == short_form) }
{
    byte == FULL_FORM || byte == SHORT_FORM
}

/// Whether a packet to a destination is for a rank.
fn is_for(rank: u8, dest: Dest) -> bool
    ensures { result ≡ received.is_for rank dest }
{
    match dest {
        Dest::All => true,
        Dest::Rank(other) => other == rank,
    }
}

/// Whether a rank is one of a view, and not the own one.
fn is_other(view: View, own: u8, rank: u8) -> bool
    ensures { result ≡ nat_lt rank (members_of view) && not (rank == own) }
{
    u32::from(rank) < member_count(view) && rank != own
}

/// Whether the group, the stamp and the view of a preamble are a member's own. No test waits for another, so the
/// compiler compares all sixteen bytes at once.
fn is_own(here: &Here, front: &Preamble) -> bool
    ensures is { result ≡ (front.now.group == here.now.group) && (front.now.stamp == here.now.stamp)
        && received.same_view front.now.view here.now.view }
    ensures own { result ≡ true → IsOwn here.now front.now }
{
    (front.group == here.group)
        & (front.stamp == here.stamp)
        & (front.view.ltime == here.view.ltime)
        & (front.view.mask == here.view.mask)
}

/// Tells the first cause for which a datagram isn't meant for a member, by its preamble.
pub(crate) fn meant_for(here: &Here, front: &Preamble) -> Result<(), Stray>
    ensures cause { result ≡ received.meant_for here.now (preamble_tree front.now) }
    ensures own { IfOk result (λ _. IsOwn here.now front.now) }
{
    if !is_own(here, front) {
        if front.group != here.group {
            return Err(Stray::Group);
        }
        if front.stamp != here.stamp {
            return Err(Stray::Stamp);
        }
        return Err(Stray::View);
    }
    if !is_other(here.view, here.rank, front.sender) {
        return Err(Stray::Sender);
    }
    if !is_for(here.rank, front.dest) {
        return Err(Stray::Dest);
    }
    Ok(())
}

//! Why a member refuses what it is given.

use msg_core::Stray;

/// Why an input is refused, in the order in which the reasons are judged.
#[derive(Clone, Copy, Debug, PartialEq, Eq)]
pub enum Refusal {
    /// The member is in no view.
    Out,
    /// The body has more than 8,192 bytes.
    TooBig,
    /// The datagram is no packet for this member.
    Stray(Stray),
}

//! What a member is given, and what it answers.

use crate::refusal::Refusal;
use msg_core::View;

/// What a member may be given.
#[derive(Drop)]
pub enum Input<'b> {
    /// A body that its application casts to all.
    Cast(&'b [u8]),
    /// A body that its application sends to a rank.
    Send(u32, &'b [u8]),
    /// The wish of its application to leave.
    Leave,
    /// A moment of its clock.
    Tick(u32),
    /// A datagram that came from the network.
    Datagram(&'b [u8]),
}

/// Where a member is after a step that announced a view.
#[derive(Clone, Copy, Debug, PartialEq, Eq)]
pub enum Change {
    /// It is in this view now.
    Into(View),
    /// It is in no view any more.
    Out,
}

/// What a member's step gave.
#[derive(Clone, Copy, Debug, PartialEq, Eq)]
pub enum Stepped {
    /// The input was taken.
    Taken {
        /// Whether the step was a common one.
        common: bool,
        /// Where the member is now, if it installed a view or left.
        change: Option<Change>,
    },
    /// The input was refused, and nothing changed.
    Refused(Refusal),
}

/// What an event of a script gave.
#[derive(Clone, Copy, Debug, PartialEq, Eq)]
pub enum Did {
    /// A member stepped.
    Stepped(Stepped),
    /// There is no packet of the number that is to be given.
    Absent,
    /// A member is shown.
    Shown,
}

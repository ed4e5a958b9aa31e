//! Who takes a datagram.

use msg_core::View;

/// A member as its packets see it: its group and its incarnation, its view, and its rank in that view.
#[derive(Clone, Copy, Debug, PartialEq, Eq)]
pub struct Here {
    pub group: u32,
    pub stamp: u32,
    pub view: View,
    pub rank: u8,
}

//! What is told of an output.

use layer_words::{Dir, Kind};
use packet_full::PacketView;

/// An event that is nothing outside of its stack: its kind and its numbers. It has no message.
#[derive(Clone, Copy)]
pub struct Signal {
    pub kind: Kind,
    pub peer: u32,
    pub a: u32,
    pub b: u32,
}

/// An output, with what it borrows of those that are gathered.
#[derive(Drop)]
pub enum OutputView<'b> {
    /// A cast of this rank is delivered, with its bytes.
    Cast(u32, &'b [u8]),
    /// A send of this rank is delivered, with its bytes.
    Send(u32, &'b [u8]),
    Block(u32),
    /// A next view is announced: its ranks, as bits.
    Announce(u32),
    /// A moment of the member's clock is asked for.
    Timer(u32),
    Packet(PacketView<'b>),
    /// A send that has no other member to go to, and the plan that its packet would have, if any.
    Nowhere(Option<u8>),
    /// An event that is nothing outside, and the way in which it left.
    Quiet(Dir, Signal),
}

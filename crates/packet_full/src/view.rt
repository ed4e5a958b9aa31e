//! What is told of a packet that is sent.

use msg_core::{Dest, Headers};

/// A packet that is sent. Its group, its stamp, its view and its sender are those of where it comes from.
#[derive(Clone, Copy)]
pub struct PacketView<'b> {
    pub dest: Dest,
    pub headers: &'b Headers,
    pub body: &'b [u8],
    /// The plan under which it is sent short; none where it is sent in full.
    pub plan: Option<u8>,
}

//! What was read of a datagram.

ghost use Rattle.std.specs.Prelude.{◌≡◌, []};
ghost use Rattle.msg_core.specs.declared.packet.Dest.TheVariants as to;

use msg_core::{Dest, Headers};

/// What a datagram that a member takes says: the sender's rank, to whom it goes, the headers, and where its body
/// begins.
#[derive(Drop)]
pub struct Scan {
    pub sender: u8,
    pub dest: Dest,
    pub headers: Headers,
    pub body: u32,
}

impl Scan {
    /// A scan that nothing was read into: no headers and no body, from rank 0 to all.
    pub fn new() -> Scan
        ensures { result ≡ record { sender = 0; dest = to.All; headers = []; body = 0 } }
    {
        Scan {
            sender: 0,
            dest: Dest::All,
            headers: Headers::new(),
            body: 0,
        }
    }
}

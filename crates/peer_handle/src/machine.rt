//! What a handle leads to.

use group_peer::Peer;

/// A member at work.
#[derive(Drop)]
pub struct Machine {
    pub(crate) peer: Peer,
}

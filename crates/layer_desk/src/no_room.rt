//! Where there is no room.

use thiserror::Error;

/// Why an operation of a desk isn't done. A layer that is accepted, at a desk that was made for it, meets none of
/// these.
#[derive(Clone, Copy, PartialEq, Eq, Debug, Error)]
pub enum NoRoom {
    /// No slot of the pool is unused.
    #[error("no slot")]
    Slot,
    /// No more events can be sent.
    #[error("no place")]
    Place,
    /// No more messages can be in hand.
    #[error("hand full")]
    Hand,
    /// A message would have more headers than there are places above.
    #[error("headers")]
    Headers,
    /// The desk wasn't made for this layer: the rows of a queue are more than it has places for.
    #[error("misfit")]
    Misfit,
}

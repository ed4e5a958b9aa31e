//! Why an entry has no shape, once memory sufficed.

/// Why an entry has no shape in a case. Places are counted from 0.
#[derive(Clone, Copy, Debug, PartialEq, Eq)]
pub enum Absent {
    /// A loop stands on the predicted way of the layer at a place.
    Loop(u8),
    /// The layer at a place has a rare handler for an event, or none for a message that isn't passed on.
    Rare(u8),
    /// The layer at a place sends a message whose headers aren't known, since it was stored.
    Stored(u8),
    /// There are too many visits.
    Long,
    /// The first case meets no condition with two predicted ways, so that the second is the same.
    Same,
}

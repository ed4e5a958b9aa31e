//! What a step began with.

/// The entry of a step.
#[derive(Clone, Copy, Debug, PartialEq, Eq)]
pub enum EntryOf {
    /// An application's cast.
    Cast,
    /// An application's send.
    Send,
    /// A packet, by the number of the least plan that it fits.
    Plan(u8),
    /// Anything else: a packet that fits no plan, a leave, a tick.
    None,
}

//! Events without their messages.

use layer_words::Kind;

/// An event of which all but its message is known. Numbers that its kind doesn't have are 0.
#[derive(Clone, Copy, Debug, PartialEq, Eq)]
pub struct Envelope {
    pub kind: Kind,
    /// The rank that a Cast or a Send names.
    pub peer: u32,
    pub a: u32,
    pub b: u32,
}

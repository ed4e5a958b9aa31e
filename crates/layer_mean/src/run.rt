//! What layers exchange, and what their queues keep.

use layer_words::Kind;
use msg_core::{Fields, Message};

/// Which of a layer's common cases is predicted: a condition with two predicted ways goes into its first block in the
/// first case and past it in the second; everything else is predicted alike in both.
#[derive(Clone, Copy, PartialEq, Eq, Debug)]
pub enum Case {
    First,
    Second,
}

/// What travels between adjacent layers. Numbers that its kind doesn't have are 0, and a Cast and a Send alone carry a
/// message.
#[derive(Drop)]
pub struct Event {
    pub kind: Kind,
    /// The rank that a Cast or a Send names: its sender going up, and going down the one that it is for.
    pub peer: u32,
    pub a: u32,
    pub b: u32,
    pub message: Option<Message>,
}

/// A row of a queue: its numbers, and the message that it may end with.
#[derive(Drop)]
pub struct Row {
    pub numbers: Fields,
    pub message: Option<Message>,
}

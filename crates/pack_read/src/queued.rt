//! A queue, as it is read.

use pack_words::Spot;

/// A queue: its cell, and the node of its index.
#[derive(Clone, Copy)]
pub struct PackedQueue {
    pub spot: Spot,
    pub index: u32,
}

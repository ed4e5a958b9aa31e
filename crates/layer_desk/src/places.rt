//! What operations name of a layer's cells, and of what is sent.

use layer_mean::Envelope;
use layer_words::Dir;
use msg_core::Header;

/// A row: the cell of its queue, the queue's index there, and how many rows stand before it.
#[derive(Clone, Copy, Debug, PartialEq, Eq)]
pub struct RowAt {
    pub cell: u8,
    pub index: u32,
    pub row: u32,
}

/// A queue: its cell, its index there, and how many rows it may have.
#[derive(Clone, Copy, Debug, PartialEq, Eq)]
pub struct Queue {
    pub cell: u8,
    pub index: u32,
    pub capacity: u8,
}

/// A number of a square cell: its row and its column, each the number of a member.
#[derive(Clone, Copy, Debug, PartialEq, Eq)]
pub struct Square {
    pub cell: u8,
    pub row: u32,
    pub column: u32,
}

/// What is sent but for its message: where it goes, the event without its message, and the header that the message gets
/// where it goes down.
#[derive(Clone, Copy)]
pub struct Sending {
    pub direction: Dir,
    pub envelope: Envelope,
    pub header: Header,
}

//! What is told of outputs.

use view_core::Change;

/// An output in numbers: its kind; the rank of which a body is delivered; to whom a packet goes, as ids, or whom a view
/// that is announced has, as ranks, each a bit; the number of a block, or a moment; and the plan under which a packet
/// is sent short, counted from 1, or 0 where it is sent in full.
#[derive(Clone, Copy)]
pub struct Head {
    pub kind: u32,
    pub peer: u32,
    pub to: u32,
    pub number: u32,
    pub plan: u32,
}

/// What became of bytes that were to be put into a room.
#[derive(Clone, Copy)]
pub(crate) enum Put {
    /// So many stand there.
    Fits(usize),
    /// There are so many, and the room is too small.
    Short(usize),
}

/// What is told next.
#[derive(Clone, Copy)]
pub enum Told {
    /// An output, which has so many bytes.
    Output(Head, usize),
    /// That the so many bytes of the next output need a larger room.
    NoRoom(usize),
    /// After the last output, where the member is since the step.
    Changed(Change),
    /// That all was told.
    Nothing,
}

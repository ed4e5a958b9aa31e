//! The parts of which numbers and messages are listed.

use crate::written::Spot;

/// A part of a number or message: the node of a number or of a message, or a cell with the node of its index.
#[derive(Clone, Copy)]
pub(crate) enum Part {
    Number(u32),
    Message(u32),
    Cell(Spot, u32),
}

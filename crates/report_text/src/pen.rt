//! What lines are built in.

use report_lines::Line;
use std::alloc::Global;

/// A line as it is built, and the bytes of a packet. Their memory is kept from line to line.
#[derive(Drop)]
pub struct Pen {
    pub(crate) line: Line,
    pub(crate) bytes: Vec<u8>,
}

impl Pen {
    /// An empty pen, which takes no memory yet.
    pub fn new(alloc: Global) -> Pen {
        Pen {
            line: Line::new(alloc),
            bytes: Vec::new(alloc),
        }
    }
}

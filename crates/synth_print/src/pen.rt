//! What lines are built in.

use report_lines::Line;
use std::alloc::Global;

/// The line that is being built, in memory that is kept from line to line, and where more memory comes from.
#[derive(Drop)]
pub(crate) struct Pen {
    pub alloc: Global,
    pub line: Line,
}

impl Pen {
    /// An empty pen, which takes no memory yet.
    pub(crate) fn new(alloc: Global) -> Pen {
        Pen {
            alloc,
            line: Line::new(alloc),
        }
    }
}

//! What a node builds lines and datagrams in.

use report_lines::Line;
use report_text::Pen;

/// What the lines of outputs, other lines and datagrams are built in. Memory is kept from one to the next.
#[derive(Drop)]
pub struct Tools {
    pub pen: Pen,
    pub line: Line,
    pub bytes: Vec<u8>,
}

//! Places in a text.

/// A place in a text: its line and its column, each counted from 1. Columns count bytes.
#[derive(Clone, Copy, PartialEq, Eq, Debug)]
pub struct At {
    pub line: u32,
    pub col: u32,
}

//! A number of a cell, as it is read.

use pack_words::Spot;

/// A number of a cell, by the nodes of its indices.
#[derive(Clone, Copy)]
pub enum Target {
    Element { spot: Spot, index: u32 },
    Square { spot: Spot, row: u32, column: u32 },
}

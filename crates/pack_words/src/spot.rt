//! Where a cell is.

/// A cell of the layer at a place.
#[derive(Clone, Copy)]
pub struct Spot {
    pub place: u8,
    pub cell: u8,
}

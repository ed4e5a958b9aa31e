//! Where in a group something is read.

/// A cell of a layer of a member: the member's id, the layer's place and the cell's number.
#[derive(Clone, Copy)]
pub struct Spot {
    pub id: u8,
    pub place: u8,
    pub cell: u8,
}

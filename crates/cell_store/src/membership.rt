//! What layers are told of a view.

/// What the layers of a member are told of its view.
#[derive(Clone, Copy)]
pub struct Membership {
    /// The own rank.
    pub me: u32,
    /// How many members there are.
    pub count: u32,
    /// How many views came before.
    pub ltime: u32,
}

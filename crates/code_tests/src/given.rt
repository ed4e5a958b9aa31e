//! What code is run on, beside the layers.

/// The numbers of the member and of an input, the fields of the input's packet that its plan leaves variable, and the
/// input's body.
#[derive(Clone, Copy)]
pub struct Given<'a> {
    /// The own rank.
    pub me: u32,
    /// The number of members.
    pub count: u32,
    /// How many views came before.
    pub ltime: u32,
    /// The peer of the input.
    pub peer: u32,
    pub fields: &'a [u32],
    pub body: &'a [u8],
}

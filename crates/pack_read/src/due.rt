//! What a file has to hold.

use layer_mean::Case;

/// A case that a file has to hold: the number of its entry (0 for the application's own cast, 1 for its send, and then
/// the stack's plans), and how many fields of that vary.
#[derive(Clone, Copy)]
pub struct Due {
    pub entry: u32,
    pub case: Case,
    pub fields: u32,
}

//! Names, and where they stand.
use layer_words::{At, Word};

/// A name, and the place of its first byte.
#[derive(Clone, Copy, PartialEq, Eq)]
pub struct Name {
    pub at: At,
    pub word: Word,
}

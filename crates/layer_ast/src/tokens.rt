//! The tokens of a layer file.
use layer_words::{At, Kind, Sign, Word};

/// One token: a name is a word that isn't reserved, a number is at most 4294967295.
#[derive(Clone, Copy, PartialEq, Eq)]
pub enum Token {
    Name(Word),
    Number(u32),
    Kind(Kind),
    Sign(Sign),
}

/// A token, and the place of its first byte.
#[derive(Clone, Copy, PartialEq, Eq)]
pub struct Lexed {
    pub token: Token,
    pub at: At,
}

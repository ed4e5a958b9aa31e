//! Why a text gives no file.
ghost use Rattle.std.specs.Prelude.{◌≡◌};
ghost use Rattle.file_parse.specs.declared.error.ParseError.TheVariants.{Memory};

use layer_words::At;
use std::alloc::AllocError;
use thiserror::Error;

/// Why a text gives no file. A place is that of a token's first byte, or just past the last byte of a text that ends
/// too early.
#[derive(Clone, Copy, PartialEq, Eq, Debug, Error)]
pub enum ParseError {
    #[error("the text has more than 1048576 bytes")]
    TooLarge,
    #[error("bad token at {}:{}", .0.line, .0.col)]
    BadToken(At),
    #[error("unexpected at {}:{}", .0.line, .0.col)]
    Unexpected(At),
    #[error("no memory")]
    Memory,
}

impl From<AllocError> for ParseError {
    ghost from_gives = { λ _ e. e ≡ Memory };

    fn from(_error: AllocError) -> ParseError {
        ParseError::Memory
    }
}

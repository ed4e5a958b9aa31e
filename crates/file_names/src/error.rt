//! Why the names of a file are not resolved.

ghost use Rattle.std.specs.Prelude.{◌≡◌};
ghost use Rattle.file_names.specs.declared.error.NameError.TheVariants.{Memory};

use layer_words::At;
use std::alloc::{AllocError, AllocFailed};
use thiserror::Error;

/// The first fault of a file's names, at its place, or want of memory.
#[derive(Clone, Copy, PartialEq, Eq, Debug, Error)]
pub enum NameError {
    /// A name isn't declared, or not visible where it is used.
    #[error("unknown name at {}:{}", .0.line, .0.col)]
    Unknown(At),
    /// A name or a handler is there already.
    #[error("there twice at {}:{}", .0.line, .0.col)]
    Twice(At),
    /// One more than a limit allows.
    #[error("too many at {}:{}", .0.line, .0.col)]
    TooMany(At),
    #[error("no memory")]
    Memory,
}

impl From<AllocError> for NameError {
    ghost from_gives = { λ _ e. e ≡ Memory };

    fn from(_: AllocError) -> NameError {
        NameError::Memory
    }
}

impl<T: Drop> From<AllocFailed<T>> for NameError {
    ghost from_gives = { λ _ e. e ≡ Memory };

    fn from(_: AllocFailed<T>) -> NameError {
        NameError::Memory
    }
}

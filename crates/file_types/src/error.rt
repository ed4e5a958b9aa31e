//! Why the types of a file are refused.

ghost use Rattle.std.specs.Prelude.{◌≡◌};
ghost use Rattle.file_types.specs.declared.error.TypeError.TheVariants.{Memory};

use layer_words::At;
use std::alloc::AllocError;
use thiserror::Error;

/// The first fault of a file's types, at its place, or want of memory.
#[derive(Clone, Copy, PartialEq, Eq, Debug, Error)]
pub enum TypeError {
    /// Something is of another kind than is needed.
    #[error("wrong kind at {}:{}", .0.line, .0.col)]
    Kind(At),
    /// There is another number of arguments or names.
    #[error("wrong number of arguments at {}:{}", .0.line, .0.col)]
    Arity(At),
    /// A header stands where none may.
    #[error("header in a wrong direction at {}:{}", .0.line, .0.col)]
    Direction(At),
    /// A header doesn't suit the message.
    #[error("unsuited header at {}:{}", .0.line, .0.col)]
    Header(At),
    /// An initial value isn't made of what it may be made of.
    #[error("wrong initial value at {}:{}", .0.line, .0.col)]
    Initial(At),
    #[error("no memory")]
    Memory,
}

impl From<AllocError> for TypeError {
    ghost from_gives = { λ _ e. e ≡ Memory };

    fn from(_: AllocError) -> TypeError {
        TypeError::Memory
    }
}

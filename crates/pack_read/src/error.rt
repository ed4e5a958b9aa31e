//! Why a file isn't read.

ghost use Rattle.std.specs.Prelude.{◌≡◌};

use std::alloc::AllocError;

/// A file of traces isn't read.
#[derive(Clone, Copy, Debug)]
pub enum ReadError {
    /// The line of this number, counted from 1, is the first out of form; where `end` is missing it is one past the
    /// last.
    Line(u32),
    Memory,
}

impl From<AllocError> for ReadError {
    ghost use Rattle.pack_read.specs.declared.error.ReadError.TheVariants.{Memory};

    ghost from_gives = { λ _ e. e ≡ Memory };

    fn from(_error: AllocError) -> ReadError {
        ReadError::Memory
    }
}

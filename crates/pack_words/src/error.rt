//! Why a line isn't read.

ghost use Rattle.std.specs.Prelude.{◌≡◌};

use std::alloc::AllocError;

/// The line is out of form, or memory was wanted.
#[derive(Clone, Copy, Debug)]
pub enum LineError {
    Form,
    Memory,
}

impl From<AllocError> for LineError {
    ghost use Rattle.pack_words.specs.declared.error.LineError.TheVariants.{Memory};

    ghost from_gives = { λ _ e. e ≡ Memory };

    fn from(_error: AllocError) -> LineError {
        LineError::Memory
    }
}

//! Why a stack is not accepted.

ghost use Rattle.std.specs.Prelude.{◌≡◌};
ghost use Rattle.stack_judge.specs.declared.error.StackError.TheVariants.{Memory};

use layer_words::Kind;
use std::alloc::{AllocError, AllocFailed};
use thiserror::Error;

/// Why a stack is not accepted.
#[derive(Debug, Drop, Error)]
pub enum StackError {
    /// An event of this kind that arrives at this place, counted from 0, can follow from itself.
    #[error("an event at place {0} can follow from itself")]
    Cycle(u8, Kind),
    /// Too many tasks can follow from an entry: this many, as far as 32 bits hold the number.
    #[error("{0} tasks can follow from one event")]
    TooMany(u32),
    /// Too many joins can follow from an entry.
    #[error("too many joins can follow from one event")]
    TooManyJoins,
    #[error("no memory")]
    Memory,
}

impl From<AllocError> for StackError {
    ghost from_gives = { λ _ e. e ≡ Memory };

    fn from(_: AllocError) -> StackError {
        StackError::Memory
    }
}

impl<T: Drop> From<AllocFailed<T>> for StackError {
    ghost from_gives = { λ _ e. e ≡ Memory };

    fn from(_: AllocFailed<T>) -> StackError {
        StackError::Memory
    }
}

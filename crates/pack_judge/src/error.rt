//! Why a file of traces isn't run for a stack.

ghost use Rattle.std.specs.Prelude.{◌≡◌};
ghost use Rattle.pack_judge.specs.declared.error.BypassError.TheVariants.{Memory};
ghost use Rattle.pack_judge.specs.Unread.{unread};

use layer_mean::Case;
use msg_core::Memory as NoMemory;
use pack_read::ReadError;
use std::alloc::{AllocError, AllocFailed};
use thiserror::Error;

/// Why a file of traces isn't run for a stack: what is wrong with it first, or want of memory.
#[derive(Clone, Copy, Debug, PartialEq, Eq, Error)]
pub enum BypassError {
    /// The file has more than 33,554,432 bytes.
    #[error("the file is too large")]
    TooLarge,
    /// The line of this number, counted from 1, is out of form.
    #[error("line {0} is out of form")]
    Line(u32),
    /// The trace of a case does something else than the stack's own, from that act on. The entry is counted: 0 is the
    /// application's own cast, 1 its send, and 2 and the number of a plan that plan's packet.
    #[error("the trace of a case does something else")]
    Differs { entry: u32, case: Case, act: u32 },
    #[error("no memory")]
    Memory,
}

impl From<AllocError> for BypassError {
    ghost from_gives = { λ _ e. e ≡ Memory };

    fn from(_: AllocError) -> BypassError {
        BypassError::Memory
    }
}

impl<T: Drop> From<AllocFailed<T>> for BypassError {
    ghost from_gives = { λ _ e. e ≡ Memory };

    fn from(_: AllocFailed<T>) -> BypassError {
        BypassError::Memory
    }
}

impl From<NoMemory> for BypassError {
    ghost from_gives = { λ _ e. e ≡ Memory };

    fn from(_: NoMemory) -> BypassError {
        BypassError::Memory
    }
}

impl From<ReadError> for BypassError {
    ghost from_gives = { λ error e. e ≡ unread error };

    fn from(error: ReadError) -> BypassError {
        match error {
            ReadError::Line(line) => BypassError::Line(line),
            ReadError::Memory => BypassError::Memory,
        }
    }
}

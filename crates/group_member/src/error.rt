//! Why a member isn't opened.

ghost use Rattle.std.specs.Prelude.{◌≡◌};
ghost use Rattle.group_member.specs.declared.error.OpenError.TheVariants as open_error;

use msg_core::Memory;
use std::alloc::AllocError;
use thiserror::Error;

/// Why a member isn't opened.
#[derive(Debug, Drop, Error)]
pub enum OpenError {
    /// Its layers may keep more than 8,192 rows with messages.
    #[error("its layers may keep too many rows with messages")]
    TooLarge,
    #[error("no memory")]
    Memory,
}

impl From<Memory> for OpenError {
    ghost from_gives = { λ _ e. e ≡ open_error.Memory };

    fn from(_: Memory) -> OpenError {
        OpenError::Memory
    }
}

impl From<AllocError> for OpenError {
    ghost from_gives = { λ _ e. e ≡ open_error.Memory };

    fn from(_: AllocError) -> OpenError {
        OpenError::Memory
    }
}

//! Why a report could not be audited.
ghost use Rattle.std.specs.Prelude.{◌≡◌};

use std::alloc::{AllocError, AllocFailed};
use thiserror::Error;

/// What is wrong with a text that is to be a report, or want of memory.
#[derive(Debug, Drop, Error)]
pub enum AuditError {
    /// The text has more than 67,108,864 bytes.
    #[error("too large")]
    TooLarge,
    /// The line of this number, counted from 1, is the first out of form; where `end` is missing it is
    /// one past the last.
    #[error("line {0}")]
    Line(u32),
    #[error("out of memory")]
    Memory,
}

impl<T: Drop> From<AllocFailed<T>> for AuditError {
    ghost use Rattle.audit_judge.specs.declared.error.AuditError.TheVariants.{Memory};

    ghost from_gives = { λ _ e. e ≡ Memory };

    fn from(_error: AllocFailed<T>) -> AuditError {
        AuditError::Memory
    }
}

impl From<AllocError> for AuditError {
    ghost use Rattle.audit_judge.specs.declared.error.AuditError.TheVariants.{Memory};

    ghost from_gives = { λ _ e. e ≡ Memory };

    fn from(_error: AllocError) -> AuditError {
        AuditError::Memory
    }
}

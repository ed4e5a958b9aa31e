//! Why not all lines of a run were written.

ghost use Rattle.std.specs.Prelude.{◌≡◌};
ghost use Rattle.play_jobs.specs.Play.{not_opened, unwritten};

use group_member::OpenError;
use outside::SinkError;
use thiserror::Error;

/// Why not all lines of a run were written.
#[derive(Clone, Copy, Debug, PartialEq, Eq, Error)]
pub enum PlayError {
    /// A member may keep over 8,192 rows with messages.
    #[error("too many rows")]
    TooManyRows,
    /// A put failed.
    #[error("a put failed")]
    Failed,
    /// Memory ran out.
    #[error("no memory")]
    Memory,
}

impl From<SinkError> for PlayError {
    ghost from_gives = { λ cause error. error ≡ unwritten cause };

    fn from(cause: SinkError) -> PlayError {
        match cause {
            SinkError::Failed => PlayError::Failed,
            SinkError::Memory => PlayError::Memory,
        }
    }
}

impl From<OpenError> for PlayError {
    ghost from_gives = { λ cause error. error ≡ not_opened cause };

    fn from(cause: OpenError) -> PlayError {
        match cause {
            OpenError::TooLarge => PlayError::TooManyRows,
            OpenError::Memory => PlayError::Memory,
        }
    }
}

//! Why a script could not be read.
ghost use Rattle.std.specs.Prelude.{◌≡◌};

use std::alloc::{AllocError, AllocFailed};
use thiserror::Error;

/// The first fault of a text, or want of memory.
#[derive(Debug, Drop, Error)]
pub enum ScriptError {
    /// The text has more than 4,194,304 bytes or more than 100,000 lines.
    #[error("the script is too long")]
    TooLong,
    /// The line of that number, counted from 1, is out of form.
    #[error("line {0} is out of form")]
    BadLine(u32),
    /// The line of that number is in form, and names a member that the script doesn't have.
    #[error("line {0} names no member")]
    NoMember(u32),
    #[error("out of memory")]
    Memory,
}

impl<T: Drop> From<AllocFailed<T>> for ScriptError {
    ghost use Rattle.script_text.specs.declared.error.ScriptError.TheVariants.{Memory};

    ghost from_gives = { λ _ e. e ≡ Memory };

    fn from(_error: AllocFailed<T>) -> ScriptError {
        ScriptError::Memory
    }
}

/// What is wrong with a line, wherever it stands.
#[derive(Clone, Copy, Debug)]
pub(crate) enum LineError {
    Form,
    NoMember,
    Memory,
}

impl From<AllocError> for LineError {
    ghost use Rattle.script_text.specs.declared.error.LineError.TheVariants.{Memory};

    ghost from_gives = { λ _ e. e ≡ Memory };

    fn from(_error: AllocError) -> LineError {
        LineError::Memory
    }
}

impl LineError {
    ghost use Rattle.script_text.specs.Reading.{error_at};

    /// The error of the line of that number.
    pub(crate) fn at(self, line: u32) -> ScriptError
        ensures { result ≡ error_at line self }
    {
        match self {
            LineError::Form => ScriptError::BadLine(line),
            LineError::NoMember => ScriptError::NoMember(line),
            LineError::Memory => ScriptError::Memory,
        }
    }
}

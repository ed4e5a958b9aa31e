//! Why a file is refused.

ghost use Rattle.std.specs.Prelude.{◌≡◌};
ghost use Rattle.file_judge.specs.Refusals.{names_refused, stack_refused, text_refused, types_refused};

use file_names::NameError;
use file_parse::ParseError;
use file_types::TypeError;
use layer_words::{At, Kind};
use stack_judge::StackError;
use thiserror::Error;

/// Why a file is refused: the first cause, in the order in which they stand here; of causes at places in the text, the
/// first in the text. The text is read first, then its names are judged, then its types,
/// then the stack.
#[derive(Clone, Copy, PartialEq, Eq, Debug, Error)]
pub enum FileError {
    #[error("too large")]
    TooLarge,
    /// A bad token begins here.
    #[error("token {}:{}", .0.line, .0.col)]
    BadToken(At),
    /// The text stops being the beginning of a file here.
    #[error("unexpected {}:{}", .0.line, .0.col)]
    Unexpected(At),
    /// A name isn't declared, or not visible here.
    #[error("unknown {}:{}", .0.line, .0.col)]
    Unknown(At),
    /// A name or a handler is there already.
    #[error("twice {}:{}", .0.line, .0.col)]
    Twice(At),
    /// One more than a limit allows.
    #[error("limit {}:{}", .0.line, .0.col)]
    OverLimit(At),
    /// Something of another kind than is needed.
    #[error("kind {}:{}", .0.line, .0.col)]
    Kind(At),
    /// Another number of arguments or names than is needed.
    #[error("arity {}:{}", .0.line, .0.col)]
    Arity(At),
    /// A header where none may stand.
    #[error("direction {}:{}", .0.line, .0.col)]
    Direction(At),
    /// A header that doesn't suit the message.
    #[error("header {}:{}", .0.line, .0.col)]
    Header(At),
    /// An initial value that contains something it may not.
    #[error("initial {}:{}", .0.line, .0.col)]
    Initial(At),
    /// An event of this kind that arrives at this place, counted from 0, can follow from itself.
    #[error("an event at place {0} can follow from itself")]
    Cycle(u8, Kind),
    /// This many tasks can follow from one event, as far as 32 bits hold the number.
    #[error("{0} tasks can follow from one event")]
    TooMany(u32),
    /// Too many joins can follow from one event.
    #[error("joins")]
    TooManyJoins,
    #[error("no memory")]
    Memory,
}

impl From<ParseError> for FileError {
    ghost from_gives = { λ refused e. e ≡ text_refused refused };

    fn from(refused: ParseError) -> FileError {
        match refused {
            ParseError::TooLarge => FileError::TooLarge,
            ParseError::BadToken(at) => FileError::BadToken(at),
            ParseError::Unexpected(at) => FileError::Unexpected(at),
            ParseError::Memory => FileError::Memory,
        }
    }
}

impl From<NameError> for FileError {
    ghost from_gives = { λ refused e. e ≡ names_refused refused };

    fn from(refused: NameError) -> FileError {
        match refused {
            NameError::Unknown(at) => FileError::Unknown(at),
            NameError::Twice(at) => FileError::Twice(at),
            NameError::TooMany(at) => FileError::OverLimit(at),
            NameError::Memory => FileError::Memory,
        }
    }
}

impl From<TypeError> for FileError {
    ghost from_gives = { λ refused e. e ≡ types_refused refused };

    fn from(refused: TypeError) -> FileError {
        match refused {
            TypeError::Kind(at) => FileError::Kind(at),
            TypeError::Arity(at) => FileError::Arity(at),
            TypeError::Direction(at) => FileError::Direction(at),
            TypeError::Header(at) => FileError::Header(at),
            TypeError::Initial(at) => FileError::Initial(at),
            TypeError::Memory => FileError::Memory,
        }
    }
}

impl From<StackError> for FileError {
    ghost from_gives = { λ refused e. e ≡ stack_refused refused };

    fn from(refused: StackError) -> FileError {
        match refused {
            StackError::Cycle(place, kind) => FileError::Cycle(place, kind),
            StackError::TooMany(weight) => FileError::TooMany(weight),
            StackError::TooManyJoins => FileError::TooManyJoins,
            StackError::Memory => FileError::Memory,
        }
    }
}

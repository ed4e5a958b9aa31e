//! Why a layer file is refused, in numbers.

ghost use Rattle.std.specs.Prelude.{◌≡◌};
ghost use Rattle.peer_handle.specs.Faults.{error_fault, fault_at, fault_with, is_cause};

use file_judge::FileError;
use layer_words::At;

/// Why a layer file is refused: its cause, with its line and column, or its place, or its weight; and how many bytes
/// the sentence has that says so.
#[repr(C)]
#[derive(Clone, Copy)]
pub struct ToldFault {
    pub cause: u32,
    pub a: u32,
    pub b: u32,
    pub length: usize,
}

/// A cause with these numbers.
fn fault_with(cause: u32, a: u32, b: u32, length: usize) -> ToldFault
    ensures { result ≡ fault_with cause a b length }
{
    ToldFault {
        cause,
        a,
        b,
        length,
    }
}

/// A cause at a place in the text.
fn fault_at(cause: u32, at: At, length: usize) -> ToldFault
    ensures { result ≡ fault_at cause at length }
{
    fault_with(cause, at.line, at.col, length)
}

/// Why a file is refused, in numbers, where the sentence has so many bytes.
pub(crate) fn error_fault(error: FileError, length: usize) -> ToldFault
    ensures { result ≡ error_fault error length }
{
    match error {
        FileError::TooLarge => fault_with(1, 0, 0, length),
        FileError::BadToken(at) => fault_at(2, at, length),
        FileError::Unexpected(at) => fault_at(3, at, length),
        FileError::Unknown(at) => fault_at(4, at, length),
        FileError::Twice(at) => fault_at(5, at, length),
        FileError::OverLimit(at) => fault_at(6, at, length),
        FileError::Kind(at) => fault_at(7, at, length),
        FileError::Arity(at) => fault_at(8, at, length),
        FileError::Direction(at) => fault_at(9, at, length),
        FileError::Header(at) => fault_at(10, at, length),
        FileError::Initial(at) => fault_at(11, at, length),
        FileError::Cycle(place, _) => fault_with(12, u32::from(place), 0, length),
        FileError::TooMany(weight) => fault_with(13, weight, 0, length),
        FileError::TooManyJoins => fault_with(14, 0, 0, length),
        FileError::Memory => fault_with(0, 0, 0, length),
    }
}

/// Whether an answer of the judge of files is a cause for which a file is refused.
pub(crate) fn is_cause(error: FileError) -> bool
    ensures { result ≡ is_cause error }
{
    match error {
        FileError::Memory => false,
        _ => true,
    }
}

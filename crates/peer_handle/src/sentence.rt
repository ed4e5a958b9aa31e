//! Why a layer file is refused, in words.

ghost use Rattle.std.specs.Prelude.{◌≡◌, ◌++◌, IfOk, codes, length};
ghost use Rattle.std.specs.Fmt.{decimal};
ghost use Rattle.std.specs.String.{string_bytes};
ghost use Rattle.end_mean.specs.Status.{cause_at};
ghost use Rattle.layer_words.specs.Spelling.{kind_word};
ghost use Rattle.peer_handle.specs.Faults.{Beginning, error_sentence};

use file_judge::FileError;
use layer_words::{At, Kind};
use std::alloc::{AllocError, Global};

/// A cause with its line and column.
fn sentence_at(alloc: Global, cause: &str, at: At) -> Result<String, AllocError>
    ensures { IfOk result (λ text. string_bytes text ≡ codes "file: " ++ cause_at cause.now at) }
{
    format!(in alloc; "file: {cause} {}:{}", at.line, at.col)
}

/// A cycle with its place and its kind.
fn sentence_of_cycle(alloc: Global, place: u8, kind: Kind) -> Result<String, AllocError>
    ensures { IfOk result (λ text. string_bytes text ≡ codes "file: cycle " ++ decimal place ++ codes " " ++
        kind_word kind) }
{
    format!(in alloc; "file: cycle {place} {}", kind.word())
}

/// The sentence that says why a layer file is refused: the line that the program has for it, without its end.
pub(crate) fn error_sentence(alloc: Global, error: FileError) -> Result<String, AllocError>
    ensures { IfOk result (λ text. string_bytes text ≡ error_sentence error) }
{
    match error {
        FileError::TooLarge => String::from_str(alloc, "file: too large"),
        FileError::BadToken(at) => sentence_at(alloc, "token", at),
        FileError::Unexpected(at) => sentence_at(alloc, "unexpected", at),
        FileError::Unknown(at) => sentence_at(alloc, "unknown", at),
        FileError::Twice(at) => sentence_at(alloc, "twice", at),
        FileError::OverLimit(at) => sentence_at(alloc, "limit", at),
        FileError::Kind(at) => sentence_at(alloc, "kind", at),
        FileError::Arity(at) => sentence_at(alloc, "arity", at),
        FileError::Direction(at) => sentence_at(alloc, "direction", at),
        FileError::Header(at) => sentence_at(alloc, "header", at),
        FileError::Initial(at) => sentence_at(alloc, "initial", at),
        FileError::Cycle(place, kind) => sentence_of_cycle(alloc, place, kind),
        FileError::TooMany(weight) => format!(in alloc; "file: too many {weight}"),
        FileError::TooManyJoins => String::from_str(alloc, "file: joins"),
        FileError::Memory => String::from_str(alloc, "no memory"),
    }
}

/// Puts bytes into a room, or as many of the first as it has room for, and tells how many there are.
pub(crate) fn put_beginning(text: &[u8], room: &mut [u8]) -> usize
    ensures count { result ≡ length text.now }
    ensures put { Beginning text.now room.old room.new }
{
    let count = text.len();
    if count < room.len() {
        room[..count].copy_from_slice(text);
        return count;
    }
    room.copy_from_slice(&text[..room.len()]);
    count
}

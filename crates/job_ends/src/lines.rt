//! The lines of refusals.

ghost use Rattle.std.specs.Prelude.{◌≡◌, ◌++◌, IfOk, codes};
ghost use Rattle.pack_mean.specs.Accepted.{differs};
ghost use Rattle.pack_mean.specs.File as file;
ghost use Rattle.std.specs.String.{string_bytes};
ghost use Rattle.std.specs.Fmt.{decimal};
ghost use Rattle.layer_words.specs.Spelling as spelling;
ghost use Rattle.end_mean.specs.Status as status;
ghost use Rattle.job_ends.specs.Shown.{file_end};

use file_judge::FileError;
use layer_mean::Case;
use layer_words::{At, Kind};
use std::alloc::{AllocError, Global};

/// The line of a refused report.
pub(crate) fn report_line(alloc: Global, line: u32) -> Result<String, AllocError>
    ensures { IfOk result (λ text. string_bytes text ≡ codes "file: line " ++ decimal line ++ codes "\n") }
{
    format!(in alloc; "file: line {line}\n")
}

/// The line for a second file with a line out of form.
pub(crate) fn second_line(alloc: Global, line: u32) -> Result<String, AllocError>
    ensures { IfOk result (λ text. string_bytes text ≡ codes "script: line " ++ decimal line ++ codes "\n") }
{
    format!(in alloc; "script: line {line}\n")
}

/// The line for a second file with a line that names a member that the group doesn't have.
pub(crate) fn second_member(alloc: Global, line: u32) -> Result<String, AllocError>
    ensures { IfOk result (λ text. string_bytes text ≡ codes "script: member " ++ decimal line ++ codes "\n") }
{
    format!(in alloc; "script: member {line}\n")
}

/// The line for a file of traces with a line out of form.
pub(crate) fn traces_line(alloc: Global, line: u32) -> Result<String, AllocError>
    ensures { IfOk result (λ text. string_bytes text ≡ codes "bypass: line " ++ decimal line ++ codes "\n") }
{
    format!(in alloc; "bypass: line {line}\n")
}

/// The line for a file of traces, one of which does something else.
pub(crate) fn traces_differ(
    alloc: Global,
    entry: u32,
    case: Case,
    act: u32,
) -> Result<String, AllocError>
    ensures { IfOk result
        (λ text. string_bytes text ≡ status.error_line (status.traces_refused (differs entry case act))) }
{
    let case = case_number(case);
    match entry {
        0 => format!(in alloc; "bypass: entry cast case {case} op {act}\n"),
        1 => format!(in alloc; "bypass: entry send case {case} op {act}\n"),
        _ => format!(in alloc; "bypass: entry plan {} case {case} op {act}\n", entry - 2),
    }
}

/// The number of a case.
fn case_number(case: Case) -> u8
    ensures { result ≡ file.case_number case }
{
    match case {
        Case::First => 1,
        Case::Second => 2,
    }
}

/// The line of a refused stack file.
pub(crate) fn file_line(alloc: Global, error: FileError) -> Result<String, AllocError>
    ensures { IfOk result (λ line. string_bytes line ≡ status.error_line (file_end error)) }
{
    match error {
        FileError::TooLarge => String::from_str(alloc, "file: too large\n"),
        FileError::BadToken(at) => cause_at(alloc, "token", at),
        FileError::Unexpected(at) => cause_at(alloc, "unexpected", at),
        FileError::Unknown(at) => cause_at(alloc, "unknown", at),
        FileError::Twice(at) => cause_at(alloc, "twice", at),
        FileError::OverLimit(at) => cause_at(alloc, "limit", at),
        FileError::Kind(at) => cause_at(alloc, "kind", at),
        FileError::Arity(at) => cause_at(alloc, "arity", at),
        FileError::Direction(at) => cause_at(alloc, "direction", at),
        FileError::Header(at) => cause_at(alloc, "header", at),
        FileError::Initial(at) => cause_at(alloc, "initial", at),
        FileError::Cycle(place, kind) => cycle(alloc, place, kind),
        FileError::TooMany(weight) => format!(in alloc; "file: too many {weight}\n"),
        FileError::TooManyJoins => String::from_str(alloc, "file: joins\n"),
        FileError::Memory => String::from_str(alloc, "no memory\n"),
    }
}

/// A cause with its line and column.
fn cause_at(alloc: Global, cause: &str, at: At) -> Result<String, AllocError>
    ensures { IfOk result (λ line. string_bytes line ≡ codes "file: " ++ status.cause_at cause.now at ++ codes "\n") }
{
    format!(in alloc; "file: {cause} {}:{}\n", at.line, at.col)
}

/// A cycle with its place and its kind.
fn cycle(alloc: Global, place: u8, kind: Kind) -> Result<String, AllocError>
    ensures { IfOk result (λ line. string_bytes line ≡ codes "file: cycle " ++ decimal place ++ codes " " ++
        spelling.kind_word kind ++ codes "\n") }
{
    format!(in alloc; "file: cycle {place} {}\n", kind.word())
}

//! What is said of how a job ended.

ghost use Rattle.std.specs.Prelude.{◌≡◌};
ghost use Rattle.script_mean.specs.Script.{bad_line, no_member};
ghost use Rattle.audit_mean.specs.Finding as report;
ghost use Rattle.end_mean.specs.Status.{misspelled, report_refused, second_refused, status_number, traces_refused};
ghost use Rattle.pack_mean.specs.Accepted as traces;
ghost use Rattle.outside.specs.Said.{errors};
ghost use Rattle.outside.specs.Tells.{tells_of};
ghost use Rattle.job_ends.specs.Shown.{Said, file_end, shown_end};

use crate::ending::Ending;
use crate::lines::{
    file_line, report_line, second_line, second_member, traces_differ, traces_line,
};
use file_judge::FileError;
use layer_mean::Case;
use outside::{NO_MEMORY, Sink, say_line};
use std::alloc::Global;

/// The status where a file is refused.
const FILE_REFUSED: u8 = 1;

/// The status where the second file is refused, or a member has too many rows.
const SECOND_REFUSED: u8 = 3;

/// The status where a file of traces is refused.
const TRACES_REFUSED: u8 = 9;

/// Says how a job ended, and answers the program's status.
pub fn say<E: Sink>(alloc: Global, ending: Ending, err: &mut E) -> u8
    ensures { Said (shown_end ending)
        (errors (tells_of E.Sink err.old) (tells_of E.Sink err.new) result) }
{
    match ending {
        Ending::Done => 0,
        Ending::Breached => say_line(b"breach\n", 8, err),
        Ending::Words => say_line(b"words: refused\n", 2, err),
        Ending::File(error) => say_file(alloc, error, err),
        Ending::ReportTooLarge => say_line(b"file: too large\n", FILE_REFUSED, err),
        Ending::ReportLine(line) => say_report(alloc, line, err),
        Ending::SecondTooLong => say_line(b"script: too long\n", SECOND_REFUSED, err),
        Ending::SecondLine(line) => say_second_line(alloc, line, err),
        Ending::SecondMember(line) => say_second_member(alloc, line, err),
        Ending::TooManyRows => say_line(b"script: rows\n", SECOND_REFUSED, err),
        Ending::TracesTooLarge => say_line(b"bypass: too large\n", TRACES_REFUSED, err),
        Ending::TracesLine(line) => say_traces_line(alloc, line, err),
        Ending::TracesDiffer(entry, case, act) => say_traces_differ(alloc, entry, case, act, err),
        Ending::Read => say_line(b"read fault\n", 4, err),
        Ending::Write => say_line(b"write fault\n", 5, err),
        Ending::Link => say_line(b"link fault\n", 6, err),
        Ending::Memory => say_line(b"no memory\n", NO_MEMORY, err),
    }
}

/// Says why a stack file is refused. That memory ran out is said without any.
fn say_file<E: Sink>(alloc: Global, error: FileError, err: &mut E) -> u8
    ensures { Said (file_end error)
        (errors (tells_of E.Sink err.old) (tells_of E.Sink err.new) result) }
{
    match error {
        FileError::Memory => say_line(b"no memory\n", NO_MEMORY, err),
        _ => say_cause(alloc, error, err),
    }
}

/// Says the cause for which a stack file is refused.
fn say_cause<E: Sink>(alloc: Global, error: FileError, err: &mut E) -> u8
    ensures { Said (file_end error)
        (errors (tells_of E.Sink err.old) (tells_of E.Sink err.new) result) }
{
    match file_line(alloc, error) {
        Ok(line) => say_line(line.as_bytes(), file_status(error), err),
        Err(_) => NO_MEMORY,
    }
}

/// The status of a refused stack file.
fn file_status(error: FileError) -> u8
    ensures { result ≡ status_number (file_end error) }
{
    match error {
        FileError::Memory => NO_MEMORY,
        _ => FILE_REFUSED,
    }
}

/// Says which line of a report is out of form.
fn say_report<E: Sink>(alloc: Global, line: u32, err: &mut E) -> u8
    ensures { Said (report_refused (report.bad_line line))
        (errors (tells_of E.Sink err.old) (tells_of E.Sink err.new) result) }
{
    match report_line(alloc, line) {
        Ok(line) => say_line(line.as_bytes(), FILE_REFUSED, err),
        Err(_) => NO_MEMORY,
    }
}

/// Says which line of the second file is out of form.
fn say_second_line<E: Sink>(alloc: Global, line: u32, err: &mut E) -> u8
    ensures { Said (second_refused (misspelled (bad_line line)))
        (errors (tells_of E.Sink err.old) (tells_of E.Sink err.new) result) }
{
    match second_line(alloc, line) {
        Ok(line) => say_line(line.as_bytes(), SECOND_REFUSED, err),
        Err(_) => NO_MEMORY,
    }
}

/// Says which line of the second file names a member that the group doesn't have.
fn say_second_member<E: Sink>(alloc: Global, line: u32, err: &mut E) -> u8
    ensures { Said (second_refused (misspelled (no_member line)))
        (errors (tells_of E.Sink err.old) (tells_of E.Sink err.new) result) }
{
    match second_member(alloc, line) {
        Ok(line) => say_line(line.as_bytes(), SECOND_REFUSED, err),
        Err(_) => NO_MEMORY,
    }
}

/// Says which line of a file of traces is out of form.
fn say_traces_line<E: Sink>(alloc: Global, line: u32, err: &mut E) -> u8
    ensures { Said (traces_refused (traces.bad_line line))
        (errors (tells_of E.Sink err.old) (tells_of E.Sink err.new) result) }
{
    match traces_line(alloc, line) {
        Ok(line) => say_line(line.as_bytes(), TRACES_REFUSED, err),
        Err(_) => NO_MEMORY,
    }
}

/// Says which trace of a file does something else than the stack's own, and where.
fn say_traces_differ<E: Sink>(alloc: Global, entry: u32, case: Case, act: u32, err: &mut E) -> u8
    ensures { Said (traces_refused (traces.differs entry case act))
        (errors (tells_of E.Sink err.old) (tells_of E.Sink err.new) result) }
{
    match traces_differ(alloc, entry, case, act) {
        Ok(line) => say_line(line.as_bytes(), TRACES_REFUSED, err),
        Err(_) => NO_MEMORY,
    }
}

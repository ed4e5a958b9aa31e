//! A whole file.

ghost use Rattle.std.specs.Prelude.{◌≡◌, ◌+◌, ◌≤◌, List, length, map};
ghost use Rattle.audit_mean.specs.Text.{lines_of};
ghost use Rattle.stack_judge.specs.Answer.{stack_tree};
ghost use Rattle.pack_mean.specs.Accepted.{longest_file};
ghost use Rattle.pack_mean.specs.File as file;
ghost use Rattle.pack_read.specs.Lines.{lines_left};
ghost use Rattle.pack_read.specs.Files.{Reads, Tells, bare, begun_after, due_tree};

use crate::due::Due;
use crate::error::ReadError;
use crate::lines::Lines;
use crate::reading::Reading;
use pack_words::LineError;
use stack_judge::Stack;
use std::alloc::Global;
use trace_core::Trace;

/// The most bytes of a file of traces.
pub const LONGEST_FILE: usize = 33_554_432;

/// What the line of this number yielded.
fn told(read: Result<(), LineError>, number: u32) -> Result<(), ReadError>
    ensures { Tells read number result }
{
    match read {
        Ok(()) => Ok(()),
        Err(LineError::Form) => Err(ReadError::Line(number)),
        Err(LineError::Memory) => Err(ReadError::Memory),
    }
}

/// The traces of the lines after the first.
fn read_after(
    alloc: Global,
    stack: &Stack,
    due: &[Due],
    lines: Lines<'_>,
) -> Result<Vec<Trace>, ReadError>
    requires { length (lines_left lines) ≤ longest_file }
    ensures { Reads (file.traces_from (stack_tree stack.now) (begun_after due.now) 2 (lines_left lines.entry)) result }
{
    let mut reading = Reading::new(alloc, due);
    let mut number = 2;
    for line in lines {
        told(reading.line(alloc, stack, line), number)?;
        number += 1;
    }
    reading.finish(number)
}

/// The traces of a file, one for each case that is due, in order; or its first line that is out of form.
///
/// `Memory` is answered where memory runs out, and also where a line names more than traces keep.
pub fn read_traces(
    alloc: Global,
    stack: &Stack,
    due: &[Due],
    text: &[u8],
) -> Result<Vec<Trace>, ReadError>
    requires { length text.now ≤ longest_file }
    ensures { (dues : List file.Due) → map bare dues ≡ map due_tree due.now →
        Reads (file.traces_from (stack_tree stack.now) (file.begun dues) 1 (lines_of text.now)) result }
{
    let mut lines = Lines::of(text);
    let Some(first) = lines.next() else {
        return Err(ReadError::Line(1));
    };
    if first != b"bypasses 1".as_slice() {
        return Err(ReadError::Line(1));
    }
    read_after(alloc, stack, due, lines)
}

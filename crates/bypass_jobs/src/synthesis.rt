//! The jobs that print a stack's bypasses.

ghost use Rattle.stack_judge.specs.Answer.{stack_tree};
ghost use Rattle.job_mean.specs.Job as job;
ghost use Rattle.end_mean.specs.Status.{done};
ghost use Rattle.outside.specs.Tells.{tells_of};
ghost use Rattle.job_ends.specs.Comes.{Comes, Writes, around};
ghost use Rattle.job_ends.specs.Shown.{shown_end};
ghost use Rattle.bypass_jobs.specs.Printing.{job_of, own_lines};

use crate::printing::Printing;
use crate::text::put_text;
use file_jobs::fetch_stack;
use job_ends::Ending;
use outside::{Shelf, Sink, SinkError};
use stack_judge::Stack;
use std::alloc::Global;
use std::mem::forget;

/// Makes the bypasses of a stack file's stack, and writes their text.
pub fn synthesize<S: Shelf, O: Sink>(
    alloc: Global,
    file: &str,
    shelf: &mut S,
    out: &mut O,
) -> Ending
    ensures { Comes (job.synth file.now)
        (around S.Shelf O.Sink shelf.old shelf.new out.old out.new) (shown_end result) }
{
    print(alloc, Printing::Handlers, file, shelf, out)
}

/// Makes the bypasses of a stack file's stack, and writes their traces as a file.
pub fn pack<S: Shelf, O: Sink>(alloc: Global, file: &str, shelf: &mut S, out: &mut O) -> Ending
    ensures { Comes (job.pack file.now)
        (around S.Shelf O.Sink shelf.old shelf.new out.old out.new) (shown_end result) }
{
    print(alloc, Printing::Traces, file, shelf, out)
}

/// Makes the bypasses of a stack file's stack, and prints these. The stack's memory goes back with that of the program.
fn print<S: Shelf, O: Sink>(
    alloc: Global,
    what: Printing,
    file: &str,
    shelf: &mut S,
    out: &mut O,
) -> Ending
    ensures { Comes (job_of what file.now)
        (around S.Shelf O.Sink shelf.old shelf.new out.old out.new) (shown_end result) }
{
    match fetch_stack(alloc, file, shelf) {
        Ok(stack) => {
            let ending = write(alloc, what, &stack, out);
            forget(stack);
            ending
        }
        Err(ending) => ending,
    }
}

/// Prints a stack's bypasses, and answers how the job ended.
fn write<O: Sink>(alloc: Global, what: Printing, stack: &Stack, out: &mut O) -> Ending
    ensures { Writes (own_lines what (stack_tree stack.now)) done
        (tells_of O.Sink out.old) (tells_of O.Sink out.new) (shown_end result) }
{
    match put_text(alloc, what, stack, out) {
        Ok(()) => Ending::Done,
        Err(SinkError::Failed) => Ending::Write,
        Err(SinkError::Memory) => Ending::Memory,
    }
}

//! The job `check`.
#![tactic(auto, using(outside::proofs::Gaining::begins_none))]

ghost use Rattle.std.specs.Prelude.{◌≡◌, [], ◌∷◌, codes, ◌++◌, length};
ghost use Rattle.stack_judge.specs.Answer.{stack_tree};
ghost use Rattle.std.specs.Fmt.{decimal};
ghost use Rattle.job_mean.specs.Job as job;
ghost use Rattle.end_mean.specs.Status.{done};
ghost use Rattle.outside.specs.Tells.{tells_of};
ghost use Rattle.job_ends.specs.Comes.{Comes, Writes, around};
ghost use Rattle.job_ends.specs.Shown.{shown_end};

use crate::judged::{Output, write};
use crate::lines::accepted_line;
use crate::stack::fetch_stack;
use job_ends::Ending;
use outside::{Shelf, Sink};
use stack_judge::Stack;
use std::alloc::{AllocError, Global};
use std::mem::forget;

/// Judges a stack file, and writes how many places its stack has.
pub fn check_stack<S: Shelf, O: Sink>(
    alloc: Global,
    file: &str,
    shelf: &mut S,
    out: &mut O,
) -> Ending
    ensures { Comes (job.check file.now)
        (around S.Shelf O.Sink shelf.old shelf.new out.old out.new) (shown_end result) }
{
    match fetch_stack(alloc, file, shelf) {
        Ok(stack) => accept(alloc, places_of(stack), out),
        Err(ending) => ending,
    }
}

/// How many places a stack has. The stack is no longer needed, and its memory goes back with that of the program.
fn places_of(stack: Stack) -> u8
    ensures { result ≡ length (stack_tree stack) }
{
    let places = stack.places();
    forget(stack);
    places
}

/// Writes that a stack of this many places is accepted.
fn accept<O: Sink>(alloc: Global, places: u8, out: &mut O) -> Ending
    ensures { Writes ((codes "accepted " ++ decimal places ++ codes "\n") ∷ []) done
        (tells_of O.Sink out.old) (tells_of O.Sink out.new) (shown_end result) }
{
    match accepted_line(alloc, places) {
        Ok(line) => {
            let output = Output {
                line,
                breach: false,
            };
            write(&output, out)
        }
        Err(AllocError) => Ending::Memory,
    }
}

//! Stack files, read from a shelf and judged.

ghost use Rattle.std.specs.Prelude.{◌≡◌};
ghost use Rattle.std.specs.Option.{option_map};
ghost use Rattle.outside.specs.Shelf.{after_read};
ghost use Rattle.file_jobs.specs.Stack.{Fetches, FetchesFile, JudgesFile, JudgesStack, ReadsText};

use file_judge::{FileError, judge, read_file};
use job_ends::Ending;
use layer_ast::{File, LONGEST_FILE};
use outside::{Got, Shelf};
use stack_judge::Stack;
use std::alloc::Global;
use std::mem::forget;

/// A stack file that is accepted: its tree, and its stack.
#[derive(Drop)]
pub struct StackFile {
    pub file: File,
    pub stack: Stack,
}

/// Reads a stack file, or finds how the job ends.
fn fetch_text<S: Shelf>(alloc: Global, file: &str, shelf: &mut S) -> Result<Vec<u8>, Ending>
    ensures read { ReadsText file.now (S.told shelf.old) (S.faults shelf.old) (S.faults shelf.new) result }
    ensures kept { S.told shelf.new ≡ option_map after_read (S.told shelf.old) }
{
    let mut text = Vec::new(alloc);
    match shelf.read(file, &mut text, u64::from(LONGEST_FILE))? {
        Got::Whole => Ok(text),
        Got::TooLong => Err(Ending::File(FileError::TooLarge)),
    }
}

/// Reads a stack file and judges it: its accepted stack, or how the job ends.
pub fn fetch_stack<S: Shelf>(alloc: Global, file: &str, shelf: &mut S) -> Result<Stack, Ending>
    ensures read { Fetches file.now (S.told shelf.old) (S.faults shelf.old) (S.faults shelf.new) result }
    ensures kept { S.told shelf.new ≡ option_map after_read (S.told shelf.old) }
{
    let text = fetch_text(alloc, file, shelf)?;
    judged(alloc, &text)
}

/// Reads a stack file and judges it: its accepted stack with the file's tree, or how the job ends.
pub fn fetch_file<S: Shelf>(alloc: Global, file: &str, shelf: &mut S) -> Result<StackFile, Ending>
    ensures read { FetchesFile file.now (S.told shelf.old) (S.faults shelf.old) (S.faults shelf.new) result }
    ensures kept { S.told shelf.new ≡ option_map after_read (S.told shelf.old) }
{
    let text = fetch_text(alloc, file, shelf)?;
    judged_file(alloc, &text)
}

/// The accepted stack of a text, or why it is refused.
fn judged(alloc: Global, text: &[u8]) -> Result<Stack, Ending>
    ensures { JudgesStack text.now result }
{
    let stack = judge(alloc, text)?;
    Ok(stack)
}

/// The accepted stack of a text with the tree of the file that it spells, or why it is refused. Judging takes its own
/// tree apart, so the text is read once more. The memory of a stack that is no longer needed goes back with that of the
/// program.
fn judged_file(alloc: Global, text: &[u8]) -> Result<StackFile, Ending>
    ensures { JudgesFile text.now result }
{
    match judge(alloc, text) {
        Ok(stack) => match read_file(alloc, text) {
            Ok(file) => Ok(StackFile { file, stack }),
            Err(error) => {
                forget(stack);
                Err(Ending::File(error))
            }
        },
        Err(error) => Err(Ending::File(error)),
    }
}

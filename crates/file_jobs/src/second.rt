//! Second files, read from a shelf, and why they are refused.

ghost use Rattle.std.specs.Prelude.{◌≡◌};
ghost use Rattle.std.specs.Option.{option_map};
ghost use Rattle.outside.specs.Shelf.{after_read};
ghost use Rattle.job_ends.specs.Shown.{shown_end};
ghost use Rattle.file_jobs.specs.Second.{Reads, refused_as};

use job_ends::Ending;
use outside::{Got, Shelf};
use script_text::{LONGEST_SCRIPT, ScriptError};
use std::alloc::Global;

/// Reads the second file of a job, or finds how the job ends.
pub fn fetch_second<S: Shelf>(alloc: Global, name: &str, shelf: &mut S) -> Result<Vec<u8>, Ending>
    ensures read { Reads name.now (S.told shelf.old) (S.faults shelf.old) (S.faults shelf.new) result }
    ensures kept { S.told shelf.new ≡ option_map after_read (S.told shelf.old) }
{
    let mut text = Vec::new(alloc);
    match shelf.read(name, &mut text, LONGEST_SCRIPT as u64)? {
        Got::Whole => Ok(text),
        Got::TooLong => Err(Ending::SecondTooLong),
    }
}

/// How a job ends whose second file is refused.
pub fn refusal(error: ScriptError) -> Ending
    ensures { shown_end result ≡ refused_as error }
{
    match error {
        ScriptError::TooLong => Ending::SecondTooLong,
        ScriptError::BadLine(line) => Ending::SecondLine(line),
        ScriptError::NoMember(line) => Ending::SecondMember(line),
        ScriptError::Memory => Ending::Memory,
    }
}

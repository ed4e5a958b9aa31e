//! Scripts, read from a shelf and judged.

ghost use Rattle.std.specs.Prelude.{◌≡◌};
ghost use Rattle.std.specs.Option.{option_map};
ghost use Rattle.outside.specs.Shelf.{after_read};
ghost use Rattle.script_mean.specs.Script.{IsRunnable, script_of};
ghost use Rattle.file_jobs.specs.Second.{Fetches, Judges};

use file_jobs::{fetch_second, refusal};
use job_ends::Ending;
use outside::Shelf;
use script_mean::Script;
use script_text::read_script;
use std::alloc::Global;

/// Reads a script, or answers how the job ends.
pub(crate) fn fetch_script<S: Shelf>(
    alloc: Global,
    name: &str,
    shelf: &mut S,
) -> Result<Script, Ending>
    ensures read { Fetches script_of IsRunnable name.now (S.told shelf.old) (S.faults shelf.old) (S.faults shelf.new)
        result }
    ensures kept { S.told shelf.new ≡ option_map after_read (S.told shelf.old) }
{
    match fetch_second(alloc, name, shelf) {
        Ok(text) => judged(alloc, &text),
        Err(ending) => Err(ending),
    }
}

/// The script of a text, or why it is refused.
fn judged(alloc: Global, text: &[u8]) -> Result<Script, Ending>
    ensures { Judges script_of IsRunnable text.now result }
{
    match read_script(alloc, text) {
        Ok(script) => Ok(script),
        Err(error) => Err(refusal(error)),
    }
}

//! The reading of both files, and the check over what they mean.

ghost use Rattle.file_jobs.specs.Second as second;
ghost use Rattle.script_mean.specs.Script.{IsRunnable, script_of};
ghost use Rattle.bound_run.specs.Fetching.{Fetches};
ghost use Rattle.bound_run.specs.Reading.{request_shown};

use crate::checking::look;
use crate::output::Output;
use crate::watch::Watch;
use crate::words::Request;
use file_jobs::{fetch_second, fetch_stack, refusal};
use job_ends::Ending;
use outside::{Clock, Shelf};
use script_mean::Script;
use script_text::read_script;
use std::alloc::Global;
use std::io::Write;

/// Reads a stack file and acts and checks what they mean: what is written, or how the program ends.
pub(crate) fn fetch<S: Shelf, C: Clock + Drop, N: Write + Drop>(
    alloc: Global,
    request: Request<'_>,
    shelf: &mut S,
    watch: &mut Watch<C, N>,
) -> Result<Output, Ending>
    ensures { Fetches (request_shown request.entry) (S.told shelf.old) (S.faults shelf.old) (S.faults shelf.new)
        result }
{
    match fetch_stack(alloc, request.file, shelf) {
        Ok(stack) => match fetch_acts(alloc, request.acts, shelf) {
            Ok(acts) => look(alloc, request, stack, acts, watch),
            Err(ending) => Err(ending),
        },
        Err(ending) => Err(ending),
    }
}

/// Reads a script of acts, or finds how the program ends.
fn fetch_acts<S: Shelf>(alloc: Global, name: &str, shelf: &mut S) -> Result<Script, Ending>
    ensures { second.Fetches script_of IsRunnable name.now (S.told shelf.old) (S.faults shelf.old) (S.faults shelf.new)
        result }
{
    match fetch_second(alloc, name, shelf) {
        Ok(text) => judged(alloc, &text),
        Err(ending) => Err(ending),
    }
}

/// The script of a text, or why it is refused.
fn judged(alloc: Global, text: &[u8]) -> Result<Script, Ending>
    ensures { second.Judges script_of IsRunnable text.now result }
{
    match read_script(alloc, text) {
        Ok(script) => Ok(script),
        Err(error) => Err(refusal(error)),
    }
}

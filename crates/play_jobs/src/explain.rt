//! The job `explain`.

ghost use Rattle.job_mean.specs.Job as job;
ghost use Rattle.job_ends.specs.Comes.{Comes, around};
ghost use Rattle.job_ends.specs.Shown.{shown_end};

use crate::explaining::explain_steps;
use crate::played::ending;
use crate::script::fetch_script;
use file_jobs::{StackFile, fetch_file};
use job_ends::Ending;
use job_text::Explain;
use outside::{Shelf, Sink};
use std::alloc::Global;
use std::mem::forget;

/// Plays a script over a stack file by bypasses, and writes why its steps weren't common. The memory of the file's tree
/// isn't given back before the program ends.
pub fn explain_script<S: Shelf, O: Sink>(
    alloc: Global,
    explain: &Explain<'_>,
    shelf: &mut S,
    out: &mut O,
) -> Ending
    ensures { Comes (job.explain explain.now.file.now explain.now.script.now)
        (around S.Shelf O.Sink shelf.old shelf.new out.old out.new) (shown_end result) }
{
    match fetch_file(alloc, explain.file, shelf) {
        Ok(found) => match fetch_script(alloc, explain.script, shelf) {
            Ok(script) => {
                let StackFile { file, stack } = found;
                let run = explain_steps(alloc, &file, stack, &script, out);
                forget(file);
                ending(run)
            }
            Err(ending) => {
                forget(found);
                ending
            }
        },
        Err(ending) => ending,
    }
}

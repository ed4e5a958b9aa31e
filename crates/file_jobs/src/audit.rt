//! The job `audit`.

ghost use Rattle.job_mean.specs.Job as job;
ghost use Rattle.job_ends.specs.Comes.{Comes, around};
ghost use Rattle.job_ends.specs.Shown.{shown_end};

use crate::judged::write;
use crate::report::fetch_report;
use audit_judge::Law;
use job_ends::Ending;
use outside::{Shelf, Sink};
use std::alloc::Global;

/// Judges a law of the group on a report, and writes the verdict.
pub fn audit_report<S: Shelf, O: Sink>(
    alloc: Global,
    file: &str,
    law: Law,
    shelf: &mut S,
    out: &mut O,
) -> Ending
    ensures { Comes (job.audit file.now law)
        (around S.Shelf O.Sink shelf.old shelf.new out.old out.new) (shown_end result) }
{
    match fetch_report(alloc, file, law, shelf) {
        Ok(output) => write(&output, out),
        Err(ending) => ending,
    }
}

//! Reports, read from a shelf and judged.

ghost use Rattle.std.specs.Prelude.{◌≡◌, List, ℕ, Ok};
ghost use Rattle.audit_mean.specs.Finding.{audit_of};
ghost use Rattle.audit_mean.specs.declared.law.Law.{Law};
ghost use Rattle.file_jobs.specs.Report.{Fetches, Judges};

use crate::judged::Output;
use crate::lines::finding_line;
use audit_judge::{AuditError, Finding, LONGEST_REPORT, Law, audit};
use job_ends::Ending;
use outside::{Got, Shelf};
use std::alloc::Global;

/// Reads a report and judges a law on it: the output of that, or how the job ends.
pub(crate) fn fetch_report<S: Shelf>(
    alloc: Global,
    file: &str,
    law: Law,
    shelf: &mut S,
) -> Result<Output, Ending>
    ensures { Fetches file.now law (S.told shelf.old) (S.faults shelf.old) (S.faults shelf.new) result }
{
    let mut text = Vec::new(alloc);
    match shelf.read(file, &mut text, LONGEST_REPORT as u64)? {
        Got::Whole => judged(alloc, &text, law),
        Got::TooLong => Err(Ending::ReportTooLarge),
    }
}

/// The output for the bytes of a report, or why it is refused.
fn judged(alloc: Global, text: &[u8], law: Law) -> Result<Output, Ending>
    ensures { Judges law text.now result }
{
    match audit(alloc, text, law) {
        Ok(finding) => found(alloc, finding),
        Err(AuditError::TooLarge) => Err(Ending::ReportTooLarge),
        Err(AuditError::Line(line)) => Err(Ending::ReportLine(line)),
        Err(AuditError::Memory) => Err(Ending::Memory),
    }
}

/// The output for a finding.
fn found(alloc: Global, finding: Finding) -> Result<Output, Ending>
    ensures { (law : Law) (text : List ℕ) → audit_of law text ≡ Ok finding → Judges law text result }
{
    Ok(Output {
        line: finding_line(alloc, finding)?,
        breach: finding != Finding::Holds,
    })
}

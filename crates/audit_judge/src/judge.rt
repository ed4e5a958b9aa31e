//! Judges a law of the group on a report.
ghost use Rattle.std.specs.Prelude.{◌≡◌, ◌<◌, ◌^◌, length, IfOk};
ghost use Rattle.audit_mean.specs.Segment.{entries_of};
ghost use Rattle.audit_mean.specs.Clash.{clashes_of};
ghost use Rattle.audit_mean.specs.Lack.{lacks_of};
ghost use Rattle.audit_mean.specs.Finding.{audit_of, breaches, finding_of, least};
ghost use Rattle.audit_judge.specs.Audits.{Audits};
ghost use Rattle.audit_judge.specs.Entries.{numbered_lines};
ghost use Rattle.audit_judge.specs.Places.{lists_shown};

use crate::clashes::least_clash;
use crate::ended::ended_segments;
use crate::error::AuditError;
use crate::lacks::least_lack;
use crate::line::LineMeaning;
use crate::places::{Lists, place};
use crate::report::read_lines;
use crate::segments::entries;
use audit_mean::{Finding, Law};
use std::alloc::{AllocError, Global};

/// The most bytes of a report.
pub const LONGEST_REPORT: usize = 67_108_864;

/// Judges a law of the group on a finished run, by its report. It fails where the text is too large, where it is no
/// report (then it names the first line out of form), and where memory runs out.
pub fn audit(alloc: Global, text: &[u8], law: Law) -> Result<Finding, AuditError>
    ensures { Audits (audit_of law text.now) result }
{
    if text.len() > LONGEST_REPORT {
        return Err(AuditError::TooLarge);
    }
    let lines = read_lines(alloc, text)?;
    let breach = least_breach(alloc, law, lines.as_slice())?;
    Ok(finding(breach))
}

fn least_breach(
    alloc: Global,
    law: Law,
    lines: &[LineMeaning<'_>],
) -> Result<Option<(u32, u32)>, AllocError>
    requires { length lines.now < 2 ^ 32 }
    ensures { IfOk result (λ breach. breach ≡ least (breaches law (numbered_lines lines.now))) }
{
    match law {
        Law::Sender => disorder(alloc, Lists::OfEachPeer, lines),
        Law::Total => disorder(alloc, Lists::Whole, lines),
        Law::Same => difference(alloc, lines),
    }
}

/// The least clash on the order of deliveries.
fn disorder(
    alloc: Global,
    lists: Lists,
    lines: &[LineMeaning<'_>],
) -> Result<Option<(u32, u32)>, AllocError>
    requires { length lines.now < 2 ^ 32 }
    ensures { IfOk result
        (λ breach. breach ≡ least (clashes_of (lists_shown lists) (entries_of (numbered_lines lines.now)))) }
{
    let entries = entries(alloc, lines)?;
    let placed = place(alloc, lists, entries.as_slice())?;
    least_clash(alloc, lists, placed.as_slice())
}

/// The least lack of what others delivered.
fn difference(alloc: Global, lines: &[LineMeaning<'_>]) -> Result<Option<(u32, u32)>, AllocError>
    requires { length lines.now < 2 ^ 32 }
    ensures { IfOk result (λ breach. breach ≡ least (lacks_of (numbered_lines lines.now))) }
{
    let ended = ended_segments(alloc, lines)?;
    least_lack(alloc, ended.as_slice())
}

fn finding(breach: Option<(u32, u32)>) -> Finding
    ensures { result ≡ finding_of breach }
{
    match breach {
        Some((first, second)) => Finding::Breach(first, second),
        None => Finding::Holds,
    }
}

//! A whole report.
ghost use Rattle.std.specs.Prelude.{◌≤◌, length, IfOk};
ghost use Rattle.audit_mean.specs.Report.{running, report_from};
ghost use Rattle.audit_mean.specs.Text.{lines_of};
ghost use Rattle.audit_judge.specs.Reading.{Reads, NextStage};

use crate::error::AuditError;
use crate::line::{LineMeaning, line_said};
use crate::parts::Parts;
use std::alloc::Global;

/// Where in a report a line stands: before `end`, after it, or after `visits`.
#[derive(Clone, Copy, PartialEq, Eq)]
pub(crate) enum ReportPart {
    Running,
    Ended,
    Closed,
}

impl ReportPart {
    /// The stage after a line, if the line may stand there.
    fn following(self, line: &LineMeaning<'_>) -> Option<ReportPart>
        ensures { NextStage self line.now result }
    {
        match (self, line) {
            (ReportPart::Running, LineMeaning::End) => Some(ReportPart::Ended),
            (ReportPart::Running, LineMeaning::Visits) => None,
            (ReportPart::Running, _) => Some(ReportPart::Running),
            (ReportPart::Ended, LineMeaning::Visits) => Some(ReportPart::Closed),
            (_, _) => None,
        }
    }
}

/// What the lines of a report say, in order.
pub(crate) fn read_lines<'a>(
    alloc: Global,
    text: &'a [u8],
) -> Result<Vec<LineMeaning<'a>>, AuditError>
    requires { length text.now ≤ 67108864 }
    ensures read { Reads (report_from running 1 (lines_of text.now)) result }
    ensures few { IfOk result (λ lines. length lines.items ≤ 67108865) }
{
    let mut stage = ReportPart::Running;
    let mut lines = Vec::new(alloc);
    for line in Parts::lines(text) {
        let number = lines.len() as u32 + 1;
        let Some(said) = line_said(line) else {
            return Err(AuditError::Line(number));
        };
        let Some(next) = stage.following(&said) else {
            return Err(AuditError::Line(number));
        };
        stage = next;
        lines.push(said)?;
    }
    if stage == ReportPart::Running {
        return Err(AuditError::Line(lines.len() as u32 + 1));
    }
    Ok(lines)
}

//! The report of a run reads back, line by line, as what the definitions say of the run, for every stack: so a law
//! that is proved of a run is found by an audit of its report. Each law is the contract of a function that does
//! nothing.
#![tactic(auto)]

ghost use Rattle.report_laws.specs.ReadsBack.{AuditFinds, KeptIsFound, ReportReadsBack};

/// The bytes of a report read back as what its run says.
pub fn report_reads_back()
    ensures { ReportReadsBack }
{}

/// An audit finds in the bytes of a report what there is to find in its run.
pub fn audit_finds()
    ensures { AuditFinds }
{}

/// A law that a run has no breach of is found to hold in its report.
pub fn kept_is_found()
    ensures { KeptIsFound }
{}

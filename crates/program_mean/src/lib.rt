//! What the program does, over the bytes of its files and its words, as definitions: what each job writes, and why it
//! refuses.
#![tactic(auto)]

ghost use Rattle.program_mean.specs.Headline.{BypassesReportAsLayers, OneReport};

/// The report knows of no mode.
pub fn one_report()
    ensures { OneReport }
{}

/// What is written by bypasses is the report of the layered meaning.
pub fn bypasses_report_as_layers()
    ensures { BypassesReportAsLayers }
{}

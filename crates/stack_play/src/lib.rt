//! Scripts that are played in a group that is fed, and what is written of a run: its report, or the counts of its
//! lines.
#![tactic(auto)]

mod counting;
mod reporting;
mod run;

pub use counting::{PlayedLoad, write_counts};
pub use reporting::{Report, write_report};

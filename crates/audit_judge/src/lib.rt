//! Judges the laws of a group on the report of one finished run.
#![tactic(auto)]

mod clashes;
mod contents;
mod ended;
mod error;
mod judge;
mod lacks;
mod line;
mod marks;
mod parts;
mod places;
mod report;
mod segments;
mod values;

pub use crate::error::AuditError;
pub use crate::judge::{LONGEST_REPORT, audit};
pub use audit_mean::{Finding, Law};

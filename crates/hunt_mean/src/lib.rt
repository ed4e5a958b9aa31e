//! What a hunt is: in `specs/` which hunt words ask for, what a find is and how it is told, and what a run of the
//! program does. Its code is the styles of runs, and what is told on a worked case.
#![tactic(auto)]

mod examples;
mod style;

pub use crate::examples::{lines_are_told, runs_are_told, styles_are_named};
pub use crate::style::Style;

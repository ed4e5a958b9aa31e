//! What a bounded check is: in `specs/` which check words ask for, what it writes, and what a run of the program does.
//! Its code is what is written on a worked case.
#![tactic(auto)]

mod examples;

pub use crate::examples::lines_are_told;

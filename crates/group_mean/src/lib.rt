//! What a group is opened with, and what a node is told: definitions in `specs/`, and the mode in which members run.
#![tactic(auto)]

mod mode;

pub use mode::Mode;

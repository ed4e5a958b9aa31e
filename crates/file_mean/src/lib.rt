//! The stack of layers that a file means, with numbers for names, and when a text is a file, as definitions.
#![tactic(auto)]

pub mod samples;

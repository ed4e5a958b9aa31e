//! What names stand for in a layer file, and the first fault of its names and of its types, as definitions.
#![tactic(auto)]

pub mod laws;
pub mod samples;

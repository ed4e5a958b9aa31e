//! The trees of the library's layers, that its texts spell them, and stacks of them, by evaluation. Nothing runs here.
#![tactic(auto)]

pub mod spelled;
pub mod stacks;

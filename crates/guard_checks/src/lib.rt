//! The checks of a stack's traces, which tell what a step lacked.
#![tactic(auto)]

mod asked;
mod cases;
mod lacks;
mod needs;
mod stack;

pub use stack::StackChecks;

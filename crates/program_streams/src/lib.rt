//! What programs over the system's command line and streams share: their words, and streams that are handed what was
//! put.
#![tactic(auto)]

mod streams;
mod system;
mod words;

pub use streams::hand_on;
pub use system::begin;
pub use words::command_words;

//! What a member is given, what it answers, and why it refuses what it is given.
#![tactic(auto)]

mod refusal;
mod step;

pub use refusal::Refusal;
pub use step::{Change, Did, Input, Stepped};

//! The comments that tell of a breach of a law, before a script.
#![tactic(auto)]

mod telling;

pub use telling::{Breach, law_word, tell};

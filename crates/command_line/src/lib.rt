//! What programs of one command that read their words by `clap` share: how a command is described to it, and what it
//! finds in words.
#![tactic(auto)]

mod rules;
mod words;

pub use rules::{bare, flag, option, positional, required, with};
pub use words::{is_set, taken, text};

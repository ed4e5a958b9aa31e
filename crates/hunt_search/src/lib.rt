//! The search of a hunt: runs over a network that loses, repeats, reorders, delays and parts, each judged when it is
//! quiet; and a run that breaks a law, made small, as a script.
//!
//! Whoever asks for a run judges again, from its bytes, what is written of it: all that is claimed here is that the
//! search ends.
#![tactic(auto)]

mod aside;
mod error;
mod habits;
mod judge;
mod ledger;
mod network;
mod notes;
mod random;
mod reduce;
mod schedule;
mod search;
mod text;
mod wander;

pub use error::SearchError;
pub use search::{Aim, Search};

//! Groups that begin over one stack again and again, by its bypasses: what they share is made once.
#![tactic(auto)]

mod ground;

pub use ground::Ground;

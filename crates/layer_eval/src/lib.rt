//! One visit of a layer, as members run it: the event that comes in runs its handler's block at a desk.
#![tactic(auto)]

mod effect;
mod last;
mod message;
mod pending;
mod predicted;
mod value;
mod visit;

pub use predicted::Predicted;
pub use visit::{Visit, take_event};

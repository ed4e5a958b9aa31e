//! What a desk has to be made for, so that a layer finds room at it whatever happens.
#![tactic(auto)]

mod laws;
mod reserve;

pub use laws::{nodes_cover_needs, typed_layers_fit};
pub use reserve::{Reserve, reserve_for};

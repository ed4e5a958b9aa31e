//! A block of raw memory for a fixed number of values, whose places are first touched when they are filled.
#![tactic(auto)]

mod block;
mod memory;

pub use block::Block;
// A crate can name a block in a contract only if the types of its fields are exported.
#[doc(hidden)]
pub use memory::{Filled, Lease, Start};

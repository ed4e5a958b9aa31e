//! The judgement of layer files: bytes to an accepted stack, or to the first cause for which the file is refused.
#![tactic(auto)]

mod error;
mod judgement;

pub use error::FileError;
pub use judgement::{judge, read_file};

//! What a step that wasn't common lacked, as it is told.
#![tactic(auto)]

mod miss;

pub use miss::{Lack, Miss, Probed};

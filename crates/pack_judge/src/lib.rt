//! Files of traces, judged against a stack's own bypasses, and the bypasses that they give.
#![tactic(auto)]

mod agree;
mod cases;
mod due;
mod error;
mod joins;
mod read;
mod replace;

pub use error::BypassError;
pub use pack_read::LONGEST_FILE;
pub use read::read_bypasses;

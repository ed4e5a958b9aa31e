//! The jobs that run a stack: `replay` over a script, by a stack's own bypasses or by those whose traces a file holds,
//! `explain`, which tells why its steps weren't common, and `load` over a script that is made from a seed. Each opens a
//! group, has the script played in it, and lets go of it.
#![tactic(auto)]

mod counting;
mod error;
mod explain;
mod explaining;
mod given;
mod load;
mod played;
mod playing;
mod replay;
mod script;
mod traces;

pub use error::PlayError;
pub use explain::explain_script;
pub use given::replay_with;
pub use load::load_stack;
pub use playing::{Wanted, play};
pub use replay::replay_script;

//! Scripts of a family, played in a group that is fed.
#![tactic(auto)]

mod copying;
mod gear;
mod playing;
mod telling;

pub use copying::script_with;
pub use gear::Gear;
pub use playing::{play_all, play_one, sent};
pub use telling::write_script;

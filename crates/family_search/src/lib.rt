//! All scripts of a finite family, the shorter ones first: each keeps a law of the group, or a shortest one that
//! breaks it is found.
#![tactic(auto)]

mod choice;
mod coming;
mod due;
mod found;
mod stop;
mod timer;
mod trial;
mod trying;

pub use choice::Choice;
pub use found::Found;
pub use timer::Timer;
pub use trial::Trial;
pub use trying::search;

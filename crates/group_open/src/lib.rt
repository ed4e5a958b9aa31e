//! Groups that are opened over a stack: to be played layer by layer or by bypasses, or to be examined by the checks of
//! the bypasses.
#![tactic(auto)]

mod codes;
mod examining;
mod opening;
mod preparing;
mod room;
mod run;

pub use examining::open_examined;
pub use opening::{open, open_with};
pub use preparing::prepare;
pub use room::has_room;
pub use run::{Examination, Opened, Parts};

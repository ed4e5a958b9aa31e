//! How jobs end: the words for it, by the definitions of the program, what is said of it, and how they end over
//! streams.
#![tactic(auto)]

mod closing;
mod ending;
mod lines;
mod saying;

pub use closing::close;
pub use ending::Ending;
pub use saying::say;

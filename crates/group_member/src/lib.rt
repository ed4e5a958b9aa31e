//! A member of a group, run layer by layer or by the code of its bypasses: it takes its inputs, one step each, with its
//! messages in a pool of its own. It takes memory only as it is opened.
#![tactic(auto)]

mod commons;
mod enters;
mod entry;
mod error;
mod gathers;
mod ground;
mod kit;
mod member;
mod opening;
mod opens;
mod probes;
mod restarts;
mod runs;
mod scratch;
mod steps;
mod views;
mod works;

pub use error::OpenError;
#[doc(hidden)]
pub use kit::Kit;
pub use member::Member;
pub use opening::Opening;
#[doc(hidden)]
pub use scratch::Scratch;
#[doc(hidden)]
pub use works::Works;

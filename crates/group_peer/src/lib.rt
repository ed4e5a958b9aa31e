//! A member of a group in the process of its application, which owns its sockets and its clock: it gives the member one
//! input a call, and is then told what came out, one output a call, in numbers and bytes.
#![tactic(auto)]

mod calls;
mod given;
mod heads;
mod opening;
mod peer;
mod puts;
mod receivers;
mod told;

pub use peer::Peer;
pub use told::{Head, Told};

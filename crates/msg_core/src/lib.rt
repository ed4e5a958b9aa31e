//! Messages, headers and packets, as they travel between the members of a group.
//!
//! A message is a chain of headers, the lowest layer's first, before a body of bytes. Each layer
//! pushes its own header on the way down, and the same layer of the receiver pops it on the way up
//! (the header push and pop of Hayden's Ensemble).
#![tactic(auto)]

mod fields;
mod headers;
mod message;
mod packet;

pub use fields::{Fields, MOST_FIELDS};
pub use headers::{Headers, MOST_HEADERS};
pub use message::{Header, LONGEST_BODY, Memory, Message};
pub use packet::{Dest, LAST_MEMBER, MOST_MEMBERS, Packet, Stray, View};

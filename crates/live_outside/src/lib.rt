//! What a node needs of its outside while nothing happens: that its output hands on the lines that it gathered, and
//! that its links wait for a datagram.
#![tactic(auto)]

mod links;
mod sink;

pub use links::LiveLinks;
pub use sink::LiveSink;

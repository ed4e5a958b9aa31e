//! Links between members over UDP, one socket a member.
//!
//! The sockets are the system's, so no contract says what arrives: the counts of failed calls and who listens are
//! proved, and the bytes are shown by tests over the loopback.
#![tactic(auto)]

mod links;
mod member;

pub use links::UdpLinks;

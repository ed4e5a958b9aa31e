//! What packets are as bytes, as definitions: chains of headers, plans of short packets, the two spellings, and which
//! datagrams are stray.
#![tactic(auto)]

mod here;
pub mod samples;

pub use here::Here;

//! The bypasses of a stack, as definitions: what is made of its entries, when it is right, and how it is written.
#![tactic(auto)]

pub mod samples;

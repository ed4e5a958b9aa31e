//! What is known of a stack before it runs, as definitions: which stacks are accepted, the shapes of their predicted
//! runs, and the plans of their packets.
#![tactic(auto)]

pub mod samples;

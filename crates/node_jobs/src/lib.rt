//! The job `node`: own members of a plan's group, run over a network.
#![tactic(auto)]

mod members;
mod node;
mod plan;
mod served;

pub use node::run_node;

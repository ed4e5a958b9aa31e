//! What layers do, worked out from the definitions alone.
#![tactic(auto)]

pub mod visits;

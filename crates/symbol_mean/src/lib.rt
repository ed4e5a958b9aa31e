//! What traces do, in values of the entry: definitions by which traces are compared.
#![tactic(auto)]

pub mod samples;

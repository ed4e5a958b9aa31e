//! The text of bypasses, and their traces as a file, put line by line.
#![tactic(auto)]

mod atoms;
mod cells;
mod counts;
mod done;
mod entries;
mod handler;
mod headers;
mod name;
mod numbers;
mod operations;
mod part;
mod pen;
mod plans;
mod print;
mod scope;
mod source;
mod traces;
mod words;
mod written;

pub use print::print_bypasses;
pub use traces::print_traces;

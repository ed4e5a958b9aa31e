//! Reads the text of a script.
#![tactic(auto)]

mod address;
mod blocks;
mod datagram;
mod error;
mod event;
mod generating;
mod lines;
mod maker;
mod plan;
mod plan_line;
mod reading;
mod seed;
mod splits;
mod values;
mod words;

pub use crate::error::ScriptError;
pub use crate::generating::{Generation, Workload};
pub use crate::plan::read_plan;
pub use crate::reading::{LONGEST_SCRIPT, read_script};
pub use crate::splits::cut;
pub use crate::values::{MOST_DIGITS, number_within};

//! What the words of the command line name: definitions alone, in `specs/`.
#![tactic(auto)]

mod jobs;
mod refusals;

pub use crate::jobs::{name_jobs, simple_command};
pub use crate::refusals::{refuse_by_clap, refuse_by_job, refuse_numbers};

//! Reads the words of the command line: the job that they name, if they name one.
//!
//! `clap` reads the words at one command for all jobs, and each job then says which of them it takes. What the words
//! mean is `job_of_words` of `job_mean`.
#![tactic(auto)]

mod command;
mod given;
mod jobs;
mod named;
mod numbers;
mod reading;

pub use crate::jobs::{MOST_GENERATED, law_of};
pub use crate::named::{Audit, Explain, Job, Load, NodeJob, Replay, ReplayWith};
pub use crate::numbers::{a_number, a_number_or_zero};
pub use crate::reading::job;
pub use audit_mean::Law;
pub use group_mean::Mode;
pub use msg_core::Memory;

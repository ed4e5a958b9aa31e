//! The jobs that read one file and write one line: `check` judges a stack file, and `audit` a law on a report; and the
//! read of a stack file and of a second file, a script or a plan, for every job that has one.
#![tactic(auto)]

mod audit;
mod check;
mod judged;
mod lines;
mod report;
mod second;
mod stack;

pub use audit::audit_report;
pub use check::check_stack;
pub use second::{fetch_second, refusal};
pub use stack::{StackFile, fetch_file, fetch_stack};

//! How the program ends: the status and the line of each end. Definitions, in `specs/`, with each end worked.
#![tactic(auto)]

mod status_lines;

pub use crate::status_lines::{
    say_file_faults, say_report_faults, say_second_faults, say_statuses, say_traces_faults,
};

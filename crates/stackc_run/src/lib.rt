//! The program `stackc` over any shelf of files, any streams and any network: it replays scripts over a stack of
//! protocol layers, runs members of a group as a node, judges a stack file, prints a stack's bypasses, or audits a
//! report.
//!
//! `run` is the whole of it over sinks, and its contract says what is written and which status comes. `run_through` is
//! `run` over streams that gather what is put, and the handing on of both. `program` calls it with the arguments, the
//! files, the streams, the sockets and the clock of the system, and a program's `main` is a call of that.
#![tactic(auto)]

mod over_sinks;
mod over_streams;
mod over_system;
mod perform;

pub use over_sinks::run;
pub use over_streams::run_through;
pub use over_system::program;

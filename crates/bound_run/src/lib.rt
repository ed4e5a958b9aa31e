//! The program `stackcheck` over any shelf, any streams and any clock: whether each script of a family keeps a law of
//! the group, or a shortest one that breaks it.
//!
//! `run` is the whole of it over sinks, and its contract says what is written and which status comes. `run_through` is
//! `run` over streams that gather what is put, and the handing on of both. `program` calls it with the arguments, the
//! files, the streams and the clock of the system, and a program's `main` is a call of that.
#![tactic(auto)]

mod breach;
mod checking;
mod fetching;
mod finish;
mod output;
mod over_sinks;
mod same;
mod streams;
mod system;
mod told;
mod watch;
mod words;

pub use crate::over_sinks::run;
pub use crate::streams::run_through;
pub use crate::system::program;

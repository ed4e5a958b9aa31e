//! The program `runchart` over any shelf and any streams: it draws pictures of runs from their reports.
//!
//! `run` is the whole of it over sinks, and its contract says what is written and which status comes. `run_through` is
//! `run` over streams that gather what is put, and the handing on of both. `program` calls it with the arguments, the
//! files and the streams of the system, and a program's `main` is a call of that.
#![tactic(auto)]

mod kinds;
mod labels;
mod lines;
mod marks;
mod over_sinks;
mod picture;
mod pieces;
mod place;
mod rows;
mod saying;
mod says;
mod streams;
mod stubs;
mod style;
mod system;
mod text;
mod words;

pub use crate::over_sinks::run;
pub use crate::streams::run_through;
pub use crate::system::program;

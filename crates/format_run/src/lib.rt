//! The program `layerfmt` over any shelf of files and any streams: it lays a layer file out.
//!
//! `run` is the whole of it over sinks, and its contract says what is written and which status comes. `run_through` is
//! `run` over streams that gather what is put, and the handing on of both. `program` calls it with the arguments, the
//! files and the streams of the system.
#![tactic(auto)]

mod ending;
mod over_sinks;
mod over_streams;

pub use ending::LayoutEnding;
pub use over_sinks::run;
pub use over_streams::{program, run_through};

//! Files of traces are read: the numbers, messages and queues on their lines as nodes, each line as an operation, and
//! whole files.
#![tactic(auto)]

mod atoms;
mod chain;
mod due;
mod error;
mod expressions;
mod file;
mod header;
mod heading;
mod line;
mod lines;
mod open;
mod output;
mod queued;
mod queues;
mod read;
mod reading;
mod row;
mod sent;
mod sort;
mod store;
mod targeted;
mod write;

pub use due::Due;
pub use error::ReadError;
pub use file::{LONGEST_FILE, read_traces};

//! A node: members of a group over a network, turn by turn, whose journal is a script that replays to what it wrote.
#![tactic(auto)]

mod course;
mod desk;
mod error;
mod feeding;
mod outputs;
mod sending;
mod serving;
mod source;
mod tools;
mod turns;

pub use course::Course;
pub use error::NodeError;
pub use serving::serve;

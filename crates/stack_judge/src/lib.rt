//! Which stacks are accepted: those for which it is known beforehand that each run ends, and how much it may take.
#![tactic(auto)]

mod acceptance;
mod edges;
mod error;
mod joins;
mod judge;
mod order;
mod rounds;
mod rows;
mod search;
mod stack;
mod steady;
mod table;

pub use acceptance::accept;
pub use error::StackError;
pub use judge::WEIGHT_LIMIT;
pub use rows::MOST_ROWS;
pub use stack::Stack;

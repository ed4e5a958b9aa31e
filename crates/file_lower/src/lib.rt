//! The layers that members run, of a file that is known to be without faults: numbers stand for names, slots for what
//! handlers declare, and values for params, as each place of the stack gives them.
#![tactic(auto)]

mod cell;
mod handler;
mod layer;
mod made;
mod row;
mod stack;
mod statement;

pub use stack::numbered;

//! The queue of tasks that moves a run on, over stages whose messages stand in a pool.
#![tactic(auto)]

mod laws;
mod passes;
mod places;
mod sent;
mod tasks;
mod turns;

pub use laws::{law_entries_fit, stacks_fit};
pub use sent::events_for;
pub use tasks::{BareTask, PoolTask, Tasks};
pub use turns::run;

//! The state of one layer of one member: all its numbers in one block, and its queues in rings, for rows of any type.
//! No call but the one that makes it takes memory.
#![tactic(auto)]

mod cells;
mod initial;
mod laws;
mod membership;
mod rings;
mod slot;

pub use cells::Cells;
pub use laws::{changes_are_seen, changes_are_undone, layers_stay, reads_are_seen, rows_weigh};
pub use membership::Membership;
#[doc(hidden)]
pub use rings::Rings;
#[doc(hidden)]
pub use slot::{Frame, StoredCell};

//! The shapes of a stack's entries, drawn once and kept: what is predicted of an application's own events and of
//! packets; the plans that follow from them, which are what the receivers of packets know beforehand; and which steps
//! are common.
#![tactic(auto)]

mod cases;
mod entries;
mod entry;
mod index;
mod kept;
mod list;
mod made;
mod plan;
mod plans;
mod print;
mod stack;
mod starts;
mod types;

pub use entries::{EntryShapes, entries_tell_common};
pub use entry::EntryOf;
pub use kept::Plans;
pub use print::Print;
pub use stack::StackShapes;
pub use starts::PlanStarts;
pub use types::{MOST_PLANS, Plan};

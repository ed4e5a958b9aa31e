//! The desk at which a layer of a file works: its cells, its scope, the messages in hand and what it sends, with bodies
//! in a pool.
#![tactic(auto)]

mod at_desk;
mod desk;
mod enters;
mod layer;
mod leaves;
mod lifts;
mod maker;
mod makes;
mod own_cells;
mod passes;
mod puts;
mod reads;
mod sends;
mod takes;
mod visits;
mod writes;

pub use desk::FileDesk;
pub use layer::FileLayer;
pub use maker::Maker;
pub use own_cells::own_changes_are_undone;

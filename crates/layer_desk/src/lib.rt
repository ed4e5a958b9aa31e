//! The desk that a layer works at while it takes an event: its cells, the scope of its block, the messages in hand and
//! what it sends. All bodies of messages stand in a pool beside the desk.
#![tactic(auto)]

mod desk;
mod laws;
mod no_room;
mod places;

pub use desk::{Desk, Start};
pub use laws::places_are_of_emissions;
pub use no_room::NoRoom;
pub use places::{Queue, RowAt, Sending, Square};

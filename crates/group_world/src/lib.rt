//! A group at work: its members, and every packet ever sent in it.
#![tactic(auto)]

mod asked;
mod examined;
mod given;
mod laws;
mod members;
mod packets;
mod showing;
mod world;

pub use examined::Examined;
pub use laws::visits_are_few;
// A crate can name a world in a contract only if the types of its fields are exported.
#[doc(hidden)]
pub use packets::Packets;
pub use world::World;

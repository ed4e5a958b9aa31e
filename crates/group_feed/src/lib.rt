//! What it is to feed a group with events, and to read its members: its meaning, and what its answers say, for whatever
//! keeps the group's members.
#![tactic(auto)]

mod feed;
mod probe;
mod row;
mod shows;
mod spot;

pub use feed::Feed;
pub use probe::Probe;
pub use row::{MessageView, RowView};
pub use shows::Shows;
pub use spot::Spot;

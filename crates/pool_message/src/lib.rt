//! Messages, rows and events whose bodies stand in a pool: headers in place, and a body that is a range of a slot's
//! bytes. Nothing here takes memory.
#![tactic(auto)]

mod event;
mod events;
mod headers;
mod join;
mod laws;
mod list;
mod message;
mod message_place;
mod messages;
mod optional;
mod part;
mod row;
mod short_queue;
mod tray;

pub use event::PoolEvent;
pub use events::{Events, MOST_SENT, pass_message};
pub use laws::what_lies_stays;
pub use message::PoolMessage;
pub use message_place::MessagePlace;
pub use messages::Messages;
pub use optional::{give_back_if_any, keep_if_any};
pub use part::Part;
pub use row::PoolRow;
pub use short_queue::ShortQueue;
pub use tray::Tray;

//! The short forms of packets: which plan a packet fits, packets short under a plan, and the datagrams of both forms
//! read.
#![tactic(auto)]

mod agreement;
mod contents;
mod fields;
mod fit;
mod known;
mod laws;
mod layout;
mod layouts;
mod planned;
mod scan;
mod wire;
mod write;

pub use fields::most_fields;
pub use fit::{fits_scan, kind_of};
pub use known::Known;
pub use laws::written_short_is_read;
pub use layouts::Layouts;
pub use scan::scan_packet;
pub use wire::{put_wire, wire_room_of};
pub use write::{put_short, short_room_of};

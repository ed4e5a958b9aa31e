//! The lines of a report, each put after what a line holds: what is delivered, announced and sent, views, refusals,
//! headers by name, and what cells hold; and those that a node's journal has besides.
#![tactic(auto)]

mod cells;
mod chain;
mod digits;
mod fronts;
mod journal;
mod line;
mod lines;
mod named;
mod names;

pub use cells::{push_cell, push_index, push_message_row, push_numbers_row};
pub use chain::{push_chain, push_lead};
pub use journal::{deaf_line, journal_line, lost_line};
pub use line::Line;
pub use lines::{
    Delivery, absent_line, announce_line, block_line, deliver_line, end_line, out_line,
    packet_line, refused_line, state_line, state_out_line, timer_line, view_line, visits_line,
    wire_line,
};
pub use named::NamedStack;

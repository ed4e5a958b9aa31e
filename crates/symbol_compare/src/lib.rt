//! Whether traces do the same: their acts are compared by the numbers of their values, each of which stands once in one
//! table.
#![tactic(auto)]

mod acts;
mod counts;
mod difference;
mod form;
mod learn;
mod parts;
mod sending;
mod set;
mod sort;
mod table;
mod values;
mod walk;

pub use difference::{MOST_ACTS, first_difference};
pub use table::MOST_VALUES;

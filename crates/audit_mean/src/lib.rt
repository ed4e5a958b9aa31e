//! What an audit of a finished run is: the laws of a group, and in `specs/` which report a text is, a
//! member's segments and deliveries, what breaks each law, and the least breach.
#![tactic(auto)]

mod examples;
mod law;

pub use crate::examples::{
    find_breaches, find_faults, keep_laws, keep_laws_in_a_view_change, read_ends,
};
pub use crate::law::{Finding, Law};

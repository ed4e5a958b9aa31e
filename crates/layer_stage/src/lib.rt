//! The layers that a run visits, as a trait: one visit of a layer whose messages stand in a pool.
#![tactic(auto)]

mod laws;
mod stage;

pub use laws::{events_that_pass_are_sent_on, needs_are_those_at_a_desk};
pub use stage::Stage;

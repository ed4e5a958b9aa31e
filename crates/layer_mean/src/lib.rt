//! What layers mean, for the whole language: the trees that members run, states, values, statements, a visit, the queue
//! of tasks and the predicted way, as definitions; and codes of the trees, so that contracts may see a struct as a
//! record that holds them.
#![tactic(auto)]

mod envelope;
mod run;

pub use envelope::Envelope;
pub use run::{Case, Event, Row};

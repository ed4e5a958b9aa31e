//! What leaves a member's stack in a step: its outputs in order, gathered without memory.
#![tactic(auto)]

mod kept;
mod laws;
mod list;
mod outputs;
mod view;

// A crate can name outputs in a contract only if the types of their fields are exported.
#[doc(hidden)]
pub use kept::{Kept, Span, What};
pub use laws::law_accepted_is_light;
#[doc(hidden)]
pub use list::KeptList;
pub use outputs::Outputs;
pub use view::{OutputView, Signal};

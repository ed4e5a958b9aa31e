//! What a run of a guarded handler's code keeps, the numbers that it reads, and its tests.
#![tactic(auto)]

mod given;
mod guards;
mod limits;
mod needs;
mod numbers;
mod reads;
mod values;

pub use given::Given;
pub use guards::{first_failing, passes};
pub use limits::MOST_STEPS;
pub use needs::Needs;
pub use numbers::{made_number, made_sum, operand, operands};
pub use reads::{element, flat_index, reading};
pub use values::Values;

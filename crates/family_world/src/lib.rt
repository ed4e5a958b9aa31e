//! The scripts of a family, tried in a group over its stack.
#![tactic(auto)]

mod bounds;
mod playground;
mod reports;
mod scene;

pub use bounds::Bounds;
pub use scene::Scene;

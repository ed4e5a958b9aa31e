//! The shape of an entry of a stack: which visits and outputs follow from it where all goes as predicted in a case, and
//! what made each of them; or the first reason for which it has none.
#![tactic(auto)]

mod absent;
mod constant;
mod draw;
mod error;
mod header;
mod sketch;
mod types;
mod visit;
mod walk;

pub use absent::Absent;
pub use draw::shapes;
pub use header::DrawnHeader;
pub use sketch::MOST_VISITS;
pub use types::{CaseShapes, Known, Shape, ShapeOut, ShapeVisit, Source};

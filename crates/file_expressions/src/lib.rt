//! The first fault of the types of expressions, messages and arguments.
#![tactic(auto)]

mod arguments;
mod expressions;
mod found;
mod items;
mod places;
mod sorts;
mod wanted;

pub use arguments::argument;
pub use expressions::{expression, queue};
pub use found::{Cause, note_unless};
pub use places::{expression_at, size_at};
pub use sorts::{argument_sort, is_initial};
pub use wanted::{NUMBER, Wanted};

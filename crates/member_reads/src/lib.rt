//! A member as it is shown: its view, and the numbers and rows that its layers keep.
#![tactic(auto)]

mod row;
mod shown;

pub use row::{MessageView, RowView};
pub use shown::Shown;

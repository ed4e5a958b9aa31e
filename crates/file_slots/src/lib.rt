//! What names stand for in a layer at its place of a stack: numbers of cells, tags of headers, values of params, slots
//! of what handlers declare; and expressions, messages and arguments with these in place of names.
#![tactic(auto)]

mod argument;
mod declared;
mod placed_layer;
mod scope;
mod value;
mod visible;

pub use argument::{carries, few, fields, last, numbers, numbers_of};
pub use declared::field_count;
pub use placed_layer::PlacedLayer;
pub use scope::{Outer, VisibleNames};
pub use value::{argument_message, number, queue_index};
pub use visible::Visible;

//! Words and names on the lines of files of traces, and what they name.
#![tactic(auto)]

mod atoms;
mod cells;
mod error;
mod kinds;
mod name;
mod operators;
mod scope;
mod spot;
mod text;

pub use atoms::{atom_named, core_named};
pub use cells::{
    cell_at, cell_named, fields_of, item_named, items_named, layer_at, load_at, tag_named,
};
pub use error::LineError;
pub use kinds::{function_named, function_of, kind_named};
pub use name::Name;
pub use operators::operator_of;
pub use scope::Scope;
pub use spot::Spot;
pub use text::Text;

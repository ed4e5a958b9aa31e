//! The words of layers: events and their directions, operators and functions, the sorts of what cells hold, signs,
//! names and places in a text. Definitions and programs share them; no tree of a file is among them.
#![tactic(auto)]

mod events;
mod operators;
mod places;
mod signs;
mod sorts;
mod words;

pub use events::{Dir, Kind};
pub use operators::{Function, Operator};
pub use places::At;
pub use signs::Sign;
pub use sorts::{Likely, Shape, Sort};
pub use words::{LONGEST_WORD, Word};

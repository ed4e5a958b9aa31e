//! The syntax of layer files: its tokens, its trees with their places in the text, and what it
//! is that a text spells a file.
#![tactic(auto)]

mod names;
pub mod samples;
mod syntax;
mod tokens;

pub use names::Name;
pub use syntax::{
    Argument, Arguments, Block, Built, Declaration, Ending, Expected, Expression, File, Given,
    Handler, Item, Items, LONGEST_FILE, Layer, MessageExpression, Names, Place, Popped, Pushed,
    Queue, Size, Statement,
};
pub use tokens::{Lexed, Token};

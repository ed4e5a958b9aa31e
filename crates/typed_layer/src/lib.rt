//! Layers as members run them: at their place of a stack, with numbers in place of names, the values of params in place
//! of these, and the handler for an event found by an index. Contracts see a layer as the plain tree that its meaning
//! is defined on.
#![tactic(auto)]

mod handlers;
mod operators;
mod tree;
mod typed;

pub use handlers::{Handlers, MOST_HANDLERS};
pub use operators::{applied, applied_to};
pub use tree::{
    Blank, Carried, Cell, Content, Emission, Expected, Expression, Form, Handler, HeaderForm,
    ItemMessage, Items, MessageExpression, Numbers, RowExpression, Statement, StatementBlock,
    Taken, TakenMessage, TypedLayer,
};
pub use typed::Typed;

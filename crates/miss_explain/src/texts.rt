//! What lines are made from.

use layer_ast::File;
use report_lines::NamedStack;
use stack_shapes::{EntryShapes, Plans};

/// What lines are made from: a file, the stack that it means, the stack's plans, and the shapes of its entries.
#[derive(Clone, Copy)]
pub struct Texts<'a> {
    pub file: &'a File,
    pub stack: &'a NamedStack,
    pub plans: &'a Plans,
    pub entries: &'a EntryShapes,
}

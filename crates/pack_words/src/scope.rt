//! What a line may name.

use crate::spot::Spot;
use stack_judge::Stack;

/// Cells and headers of a stack, n variable fields, numbers bound before and messages noted before, and rows that
/// were taken from queues.
#[derive(Clone, Copy)]
pub struct Scope<'a> {
    pub stack: &'a Stack,
    pub fields: u32,
    pub binds: u32,
    pub notes: u32,
    /// The queue of each row.
    pub rows: &'a [Spot],
}

//! What numbers and messages are told from.

use crate::source::Source;
use crate::written::Written;
use stack_judge::Stack;

/// Operations of a stack, what those so far have left, and how many of the taken rows and of the noted messages may be
/// named.
#[derive(Clone, Copy)]
pub(crate) struct Scope<'a> {
    pub stack: &'a Stack,
    pub written: &'a Written,
    pub source: &'a Source<'a>,
    pub rows: usize,
    pub notes: usize,
}

/// What is told of nodes below a number, and the scope that they are told in.
#[derive(Clone, Copy)]
pub(crate) struct Below<'a> {
    pub scope: &'a Scope<'a>,
    pub number: u32,
}

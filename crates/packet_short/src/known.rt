//! What datagrams are read by.

use crate::layouts::Layouts;
use stack_judge::Stack;
use stack_shapes::Plans;

/// What is known beforehand of the datagrams of a stack: the stack, its plans, and these laid out.
#[derive(Drop)]
pub struct Known<'a> {
    pub stack: &'a Stack,
    pub plans: &'a Plans,
    pub layouts: &'a Layouts,
}

//! Whose outputs a node passes on.

use report_lines::NamedStack;
use stack_shapes::Plans;

/// A member, the stack that it runs with the plans of its packets, and the number of the next packet.
#[derive(Clone, Copy)]
pub struct OutputSource<'a> {
    pub stack: &'a NamedStack,
    pub plans: &'a Plans,
    pub id: u8,
    pub number: u64,
}

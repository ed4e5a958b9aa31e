//! How far a walk along a trace has come, and what is known there.

use crate::counts::Counts;
use trace_core::Trace;

/// A trace after its first `done` operations: the values of what was bound and noted, how many rows were taken, and how
/// often cells were written.
#[derive(Drop)]
pub(crate) struct Walk<'a> {
    pub trace: &'a Trace,
    pub done: usize,
    pub numbers: Vec<u32>,
    pub messages: Vec<u32>,
    pub takes: u32,
    pub counts: Counts,
}

//! What is printed of bypasses.

/// What is printed of a stack's bypasses.
#[derive(Clone, Copy)]
pub(crate) enum Printing {
    /// Their guarded handlers, to be read.
    Handlers,
    /// Their traces, to be run.
    Traces,
}

//! How members run.

/// How members run a stack.
#[derive(Clone, Copy, Debug, PartialEq, Eq)]
pub enum Mode {
    /// Layer by layer.
    Layered,
    /// By the bypasses of the stack, where they hold.
    Bypass,
}

//! The names of entries and their cases.

/// An entry: the application's own cast or send, or the packets of a plan by its number.
#[derive(Clone, Copy)]
pub(crate) enum Name {
    Cast,
    Send,
    Plan(u64),
}

/// An entry in its first or its second case.
#[derive(Clone, Copy)]
pub(crate) struct Case {
    pub name: Name,
    pub second: bool,
}

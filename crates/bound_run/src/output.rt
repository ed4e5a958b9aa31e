//! What is written of a check.

use report_lines::Line;

/// What is told: that each script keeps the law, that each of at most so many events does, or a breach.
#[derive(Clone, Copy, Debug, PartialEq, Eq)]
pub(crate) enum Kind {
    Held,
    HeldTo,
    Breach,
}

/// What is written, and what it tells.
#[derive(Drop)]
pub(crate) struct Output {
    pub text: Line,
    pub kind: Kind,
}

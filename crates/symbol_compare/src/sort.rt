//! What a node is: an atom, a core, or something with parts.

use trace_core::{Atom, Core};

/// An atom, a core, or neither.
#[derive(Clone, Copy)]
pub(crate) enum Sort {
    Number(Atom),
    Message(Core),
    Parts,
}

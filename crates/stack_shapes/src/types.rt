//! Plans.

ghost use Rattle.std.specs.Prelude.{◌≤◌, vec_len};
ghost use Rattle.stack_shapes.specs.declared.types.TheConstants.{MOST_PLANS};

use layer_words::Kind;

/// The most plans of a stack.
pub const MOST_PLANS: usize = 250;

/// What is known beforehand of a packet.
#[derive(Drop)]
pub struct Plan {
    pub kind: Kind,
    /// The tags of its headers, lowest layer first.
    pub tags: Vec<u8>,
    /// For each field of these headers, in the same order, the number that it always is, or None for one that varies.
    pub fields: Vec<Option<u32>>,
}

/// Plans as they are gathered, numbered from 0: at most `MOST_PLANS`.
#[derive(Drop)]
pub(crate) struct PlanList {
    pub(crate) list: Vec<Plan>,
    ghost few: { vec_len list ≤ MOST_PLANS },
}

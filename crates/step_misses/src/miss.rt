//! What a step that wasn't common lacked.

use shape_core::Absent;
use stack_shapes::EntryOf;

/// What a case of an entry lacks.
#[derive(Clone, Copy, Debug, PartialEq, Eq)]
pub enum Lack {
    /// The packet fits no plan.
    NoPlan,
    /// There is no shape within the limits.
    Absent(Absent),
    /// The run leaves the prediction, first at the decision of this number, counted from 0 through all its visits.
    Check(u32),
}

/// What a step lacked: in the first case of its entry, and in the second, where that is made. The entry of a packet
/// that fits no plan is `None`.
#[derive(Clone, Copy, Debug, PartialEq, Eq)]
pub struct Miss {
    pub entry: EntryOf,
    pub first: Lack,
    pub second: Option<Lack>,
}

/// What an event that is tried as a common step yields.
#[derive(Clone, Copy, Debug, PartialEq, Eq)]
pub enum Probed {
    /// A common step, which was made.
    Common,
    /// No cast, send or packet that is taken; nothing changed.
    Other,
    /// A step that isn't common; nothing changed.
    Missed(Miss),
}

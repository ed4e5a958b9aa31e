//! A script.
use crate::events::Events;

/// The line that a script and a plan begin with: the group, its stamp, and how many members there
/// are, 1 to 32.
#[derive(Clone, Copy, Debug, PartialEq, Eq)]
pub struct GroupLine {
    pub group: u32,
    pub stamp: u32,
    pub members: u8,
}

/// A script: what its first line says, and the events in order.
#[derive(Debug, Drop)]
pub struct Script {
    pub group: u32,
    pub stamp: u32,
    pub members: u8,
    pub events: Events,
}

//! How many lines of each kind there are.

/// The lines of each kind, the packets that are sent short, and the events.
#[derive(Clone, Copy, Debug, PartialEq, Eq)]
pub struct Counts {
    pub deliver: u64,
    pub packet: u64,
    pub timer: u64,
    pub block: u64,
    pub announce: u64,
    pub view: u64,
    pub out: u64,
    pub refused: u64,
    pub absent: u64,
    pub short: u64,
    pub events: u64,
}

//! The desk.

use cell_store::Cells;
use pool_message::{Messages, PoolRow, Tray};

/// The most headers of a message that a layer keeps: those of the places above it.
pub(crate) const MOST_ABOVE: u32 = 23;

/// The most numbers that a scope has before its block declares any: those of the event, and the fields of a header.
pub(crate) const MOST_BOUND: usize = 6;

/// The most rows of a desk's queues, for as many members as a view has at most.
pub(crate) const MOST_DESK_ROWS: u32 = 32_768;

/// The most rows, messages of the scope and messages in hand of a desk.
pub(crate) const MOST_OWN: u32 = 15_728_638;

/// What a layer of a member works at: its cells, the numbers of the scope of the handler's block, a tray with the
/// messages of that scope, the message that arrived and what it sends, and the messages in hand, the newest last.
/// Bodies of messages stand in the pool beside it.
pub struct FileDesk {
    pub(crate) cells: Cells<PoolRow>,
    pub(crate) numbers: Vec<u32>,
    pub(crate) tray: Tray,
    pub(crate) hand: Messages,
    /// How many events had been sent when the visit began, and how many there may be after it.
    pub(crate) first: usize,
    pub(crate) places: usize,
}

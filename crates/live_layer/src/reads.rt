//! What is read at a desk.

ghost use Rattle.std.specs.Prelude.{◌≡◌, [], length, slice_index, slice_index_or};
ghost use Rattle.msg_core.specs.Chain.{plain};
ghost use Rattle.layer_mean.specs.State.{number_at, flat_index, rows_at, row_at, has_room};
ghost use Rattle.layer_mean.specs.Value.{number_in, message_in};
ghost use Rattle.typed_layer.specs.View.{carried_tree};
ghost use Rattle.live_layer.specs.Stock.{laid};
ghost use Rattle.live_layer.specs.Ready.{stock_of, IsReady};

use crate::desk::FileDesk;
use layer_desk::{Queue, RowAt, Start};
use slot_pool::Pool;
use typed_layer::Carried;

/// The own rank.
pub(crate) fn me<K: Start>(desk: &FileDesk, pool: &Pool) -> u32
    requires { IsReady K.begun pool.now desk.now }
    ensures { result ≡ (laid pool.now (stock_of desk.now)).state.me }
{
    desk.cells.me()
}

/// The number of members of the view.
pub(crate) fn count<K: Start>(desk: &FileDesk, pool: &Pool) -> u32
    requires { IsReady K.begun pool.now desk.now }
    ensures { result ≡ (laid pool.now (stock_of desk.now)).state.count }
{
    desk.cells.count()
}

/// How many views came before.
pub(crate) fn ltime<K: Start>(desk: &FileDesk, pool: &Pool) -> u32
    requires { IsReady K.begun pool.now desk.now }
    ensures { result ≡ (laid pool.now (stock_of desk.now)).state.ltime }
{
    desk.cells.ltime()
}

/// The number in a slot of the scope, 0 where there is no such slot.
pub(crate) fn local<K: Start>(desk: &FileDesk, pool: &Pool, slot: u8) -> u32
    requires { IsReady K.begun pool.now desk.now }
    ensures { result ≡ slice_index (laid pool.now (stock_of desk.now)).scope.numbers slot }
{
    match desk.numbers.get(usize::from(slot)) {
        Some(number) => *number,
        None => 0,
    }
}

/// The number of a cell at an index, 0 where it isn't there.
#[tactic(auto, using(crate::proofs::Queues::number_seen))]
pub(crate) fn number<K: Start>(desk: &FileDesk, pool: &Pool, cell: u8, index: u32) -> u32
    requires { IsReady K.begun pool.now desk.now }
    ensures { result ≡ number_at (laid pool.now (stock_of desk.now)).state cell index }
{
    desk.cells.get(cell, index)
}

/// The number of a square cell in a row and a column, 0 where it isn't there.
#[tactic(auto, using(crate::proofs::Queues::number_seen))]
pub(crate) fn square<K: Start>(desk: &FileDesk, pool: &Pool, cell: u8, row: u32, column: u32) -> u32
    requires { IsReady K.begun pool.now desk.now }
    ensures { result ≡ number_at (laid pool.now (stock_of desk.now)).state cell
        (flat_index (laid pool.now (stock_of desk.now)).state.count row column) }
{
    desk.cells.square(cell, row, column)
}

/// How many rows a queue has.
#[tactic(auto, using(crate::proofs::Queues::length_seen))]
pub(crate) fn rows<K: Start>(desk: &FileDesk, pool: &Pool, cell: u8, index: u32) -> u32
    requires { IsReady K.begun pool.now desk.now }
    ensures { result ≡ length (rows_at (laid pool.now (stock_of desk.now)).state cell index) }
{
    desk.cells.len(cell, index)
}

/// A number of a row that is in a queue, 0 where it isn't there.
pub(crate) fn item<K: Start>(desk: &FileDesk, pool: &Pool, at: RowAt, number: u8) -> u32
    requires { IsReady K.begun pool.now desk.now }
    ensures { result ≡ number_in number
        (row_at (laid pool.now (stock_of desk.now)).state at.cell at.index at.row) }
{
    match desk.cells.row(at.cell, at.index, at.row) {
        Some(row) => row.numbers.at(u32::from(number)),
        None => 0,
    }
}

/// Whether a queue is there and has fewer rows than its capacity.
#[tactic(auto, using(crate::proofs::Queues::room_seen))]
pub(crate) fn has_room<K: Start>(desk: &FileDesk, pool: &Pool, queue: Queue) -> bool
    requires { IsReady K.begun pool.now desk.now }
    ensures { result ≡ has_room (laid pool.now (stock_of desk.now)).state queue.cell queue.index queue.capacity }
{
    desk.cells.has_room(queue.cell, queue.index, queue.capacity)
}

/// How many bytes a message of the scope has, 0 where it isn't there.
pub(crate) fn local_size<K: Start>(desk: &FileDesk, pool: &Pool, slot: u8) -> u32
    requires { IsReady K.begun pool.now desk.now }
    ensures { result ≡ length (slice_index_or (laid pool.now (stock_of desk.now)).scope.messages slot (plain [])).body }
{
    match desk.tray.message(usize::from(slot)) {
        Some(message) => message.len(),
        None => 0,
    }
}

/// How many bytes the message of a row in a queue has, 0 where it isn't there.
pub(crate) fn row_size<K: Start>(desk: &FileDesk, pool: &Pool, at: RowAt, carried: Carried) -> u32
    requires { IsReady K.begun pool.now desk.now }
    ensures { result ≡ length (message_in (carried_tree carried)
        (row_at (laid pool.now (stock_of desk.now)).state at.cell at.index at.row)).body }
{
    match desk.cells.row(at.cell, at.index, at.row) {
        Some(row) => match &row.message {
            Some(message) => message.len(),
            None => 0,
        },
        None => 0,
    }
}

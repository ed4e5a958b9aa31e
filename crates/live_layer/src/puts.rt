//! Rows that are put into queues.

ghost use Rattle.std.specs.Prelude.{◌≡◌, true, None, OnOk};
ghost use Rattle.layer_mean.specs.State.{has_room};
ghost use Rattle.layer_desk.specs.Laid.{queued, queued_first};
ghost use Rattle.layer_desk.specs.Need.{room_need};
ghost use Rattle.layer_desk.specs.Spent.{Spent};
ghost use Rattle.live_layer.specs.Stock.{laid};
ghost use Rattle.live_layer.specs.Ready.{stock_of, room_of, IsReady};

use crate::desk::FileDesk;
use crate::lifts::take_last;
use layer_desk::{NoRoom, Queue, Start};
use msg_core::Fields;
use pool_message::PoolRow;
use slot_pool::Pool;

/// Puts a row of numbers alone at the back of a queue that has room.
pub(crate) fn push<K: Start>(
    desk: &mut FileDesk,
    pool: &Pool,
    queue: Queue,
    numbers: Fields,
) -> Result<(), NoRoom>
    requires ready { IsReady K.begun pool.now desk.old }
    requires room { has_room (laid pool.now (stock_of desk.old)).state queue.cell queue.index queue.capacity ≡ true }
    ensures ready { IsReady K.begun pool.now desk.new }
    ensures shown { OnOk result
        (laid pool.now (stock_of desk.new) ≡
        queued queue.cell queue.index (record { numbers = numbers; message = None })
        (laid pool.now (stock_of desk.old))) }
    ensures spent { Spent (room_of pool.now desk.old) (room_of pool.now desk.new)
        (room_need K.begun.layout queue.cell queue.capacity) result }
{
    if desk.cells.capacity(queue.cell) < queue.capacity {
        return Err(NoRoom::Misfit);
    }
    let row = PoolRow {
        numbers,
        message: None,
    };
    desk.cells.push(queue.cell, queue.index, row);
    Ok(())
}

/// Puts a row with the newest message in hand at the back of a queue that has room.
pub(crate) fn push_first<K: Start>(
    desk: &mut FileDesk,
    pool: &Pool,
    queue: Queue,
    numbers: Fields,
) -> Result<(), NoRoom>
    requires ready { IsReady K.begun pool.now desk.old }
    requires room { has_room (laid pool.now (stock_of desk.old)).state queue.cell queue.index queue.capacity ≡ true }
    ensures ready { IsReady K.begun pool.now desk.new }
    ensures shown { OnOk result
        (laid pool.now (stock_of desk.new) ≡
        queued_first queue.cell queue.index numbers (laid pool.now (stock_of desk.old))) }
    ensures spent { Spent (room_of pool.now desk.old) (room_of pool.now desk.new)
        (room_need K.begun.layout queue.cell queue.capacity) result }
{
    if desk.cells.capacity(queue.cell) < queue.capacity {
        return Err(NoRoom::Misfit);
    }
    let Some(message) = take_last(&mut desk.hand) else {
        return Ok(());
    };
    let row = PoolRow {
        numbers,
        message: Some(message),
    };
    desk.cells.push(queue.cell, queue.index, row);
    Ok(())
}

//! Numbers that are set at a desk.

ghost use Rattle.std.specs.Prelude.{◌≡◌};
ghost use Rattle.layer_desk.specs.Laid.{bound, assigned, assigned_square};
ghost use Rattle.live_layer.specs.Stock.{laid};
ghost use Rattle.live_layer.specs.Ready.{stock_of, room_of, IsReady};

use crate::desk::FileDesk;
use layer_desk::{Square, Start};
use slot_pool::Pool;

/// Sets the number in a slot of the scope, if there is such a slot.
pub(crate) fn bind<K: Start>(desk: &mut FileDesk, pool: &Pool, slot: u8, value: u32)
    requires { IsReady K.begun pool.now desk.old }
    ensures ready { IsReady K.begun pool.now desk.new }
    ensures shown { laid pool.now (stock_of desk.new) ≡ bound slot value (laid pool.now (stock_of desk.old)) }
    ensures free { room_of pool.now desk.new ≡ room_of pool.now desk.old }
{
    let slot = usize::from(slot);
    if slot < desk.numbers.len() {
        desk.numbers[slot] = value;
    }
}

/// Sets the number of a cell at an index, if it is there.
pub(crate) fn assign<K: Start>(desk: &mut FileDesk, pool: &Pool, cell: u8, index: u32, value: u32)
    requires { IsReady K.begun pool.now desk.old }
    ensures ready { IsReady K.begun pool.now desk.new }
    ensures shown { laid pool.now (stock_of desk.new) ≡ assigned cell index value (laid pool.now (stock_of desk.old)) }
    ensures free { room_of pool.now desk.new ≡ room_of pool.now desk.old }
{
    desk.cells.set(cell, index, value);
}

/// Sets the number of a square cell in a row and a column, if it is there.
pub(crate) fn assign_square<K: Start>(desk: &mut FileDesk, pool: &Pool, square: Square, value: u32)
    requires { IsReady K.begun pool.now desk.old }
    ensures ready { IsReady K.begun pool.now desk.new }
    ensures shown { laid pool.now (stock_of desk.new) ≡
        assigned_square square.cell square.row square.column value (laid pool.now (stock_of desk.old)) }
    ensures free { room_of pool.now desk.new ≡ room_of pool.now desk.old }
{
    desk.cells
        .set_square(square.cell, square.row, square.column, value);
}

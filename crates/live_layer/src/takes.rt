//! Rows that are read and taken.

ghost use Rattle.std.specs.Prelude.{◌≡◌, option_copied, slice_index_or, slice_set, IfOk, OnOk, vec_capacity};
ghost use Rattle.circular_buffer.specs.Buffer.{buffer};
ghost use Rattle.slot_pool.specs.References.{Covers};
ghost use Rattle.layer_mean.specs.State.{row_at};
ghost use Rattle.layer_mean.specs.Value.{message_in};
ghost use Rattle.typed_layer.specs.View.{carried_tree, taken_tree};
ghost use Rattle.cell_store.specs.Kept.{kept_row};
ghost use Rattle.layer_desk.specs.Laid.{lifted, is_found, taken_row};
ghost use Rattle.layer_desk.specs.Need.{held_need, taken_need};
ghost use Rattle.layer_desk.specs.Spent.{Spent, Lifted};
ghost use Rattle.pool_message.specs.Moves.{Returned};
ghost use Rattle.pool_message.specs.Seen.{refs, refs_if};
ghost use Rattle.live_layer.specs.Stock.{laid};
ghost use Rattle.live_layer.specs.Ready.{stock_of, room_of, IsReady};
ghost use Rattle.live_layer.specs.Taken.{message_of, CanStandIn, JudgesBlank, JudgesWidth, JudgesTaken, StandsIn};
ghost use Rattle.live_layer.specs.Taken.{message_left, numbers_filled, IsSpent};

use crate::desk::{FileDesk, MOST_ABOVE};
use cell_store::Cells;
use layer_desk::{NoRoom, RowAt, Start};
use msg_core::Fields;
use pool_message::{PoolMessage, PoolRow, Tray};
use slot_pool::Pool;
use typed_layer::{Blank, Carried, Taken};

/// The message of a row, where there is a row and it has one.
fn row_message(cells: &Cells<PoolRow>, cell: u8, index: u32, row: u32) -> Option<&PoolMessage>
    ensures { option_copied result ≡ message_of (kept_row cells.now cell index row) }
{
    match cells.row(cell, index, row) {
        Some(row) => row.message.as_ref(),
        None => None,
    }
}

/// Whether what stands in for a missing message has headers that can't be those of the places above a layer.
fn is_too_wide(carried: Carried) -> bool
    ensures { JudgesWidth carried result }
{
    match carried {
        Carried::Part => false,
        Carried::Whole(blank) => is_beyond(blank),
    }
}

/// Whether a blank has more headers than a message that a layer keeps, or one of a place beyond 255.
#[tactic(auto, using(crate::proofs::Blank::too_many, crate::proofs::Blank::too_high))]
fn is_beyond(blank: Blank) -> bool
    ensures { JudgesBlank blank result }
{
    if u32::from(blank.count) > MOST_ABOVE {
        return true;
    }
    if u32::from(blank.first) + u32::from(blank.count) > 256 {
        return true;
    }
    false
}

/// The message that stands in for a missing one.
fn stand_in(carried: Carried) -> PoolMessage
    requires { CanStandIn carried }
    ensures { StandsIn (carried_tree carried) result }
{
    match carried {
        Carried::Part => PoolMessage::new(),
        Carried::Whole(blank) => PoolMessage::blank(blank.first, blank.count),
    }
}

/// Takes the message of a row in a queue into the hand; the row keeps it. A blank one stands in for one that isn't
/// there.
pub(crate) fn lift_row<K: Start>(
    desk: &mut FileDesk,
    pool: &mut Pool,
    at: RowAt,
    carried: Carried,
) -> Result<(), NoRoom>
    requires { IsReady K.begun pool.old desk.old }
    ensures ready { IsReady K.begun pool.new desk.new }
    ensures shown { OnOk result (laid pool.new (stock_of desk.new) ≡ lifted
        (message_in (carried_tree carried) (row_at (laid pool.old (stock_of desk.old)).state at.cell at.index at.row))
        (laid pool.old (stock_of desk.old))) }
    ensures spent { Lifted (room_of pool.old desk.old) (room_of pool.new desk.new) (held_need (carried_tree carried))
        result }
{
    if desk.hand.len() >= desk.hand.capacity() {
        return Err(NoRoom::Hand);
    }
    match row_message(&desk.cells, at.cell, at.index, at.row) {
        Some(message) => {
            desk.hand.push_kept(message, pool);
            Ok(())
        }
        None => {
            if is_too_wide(carried) {
                return Err(NoRoom::Misfit);
            }
            desk.hand.push(stand_in(carried));
            Ok(())
        }
    }
}

/// Puts the message of a taken row, or what stands in for it, in place of a message of the scope, whose reference goes
/// back. The row's message is then without headers and bytes.
fn put_message(
    tray: &mut Tray,
    slot: u8,
    message: &mut Option<PoolMessage>,
    carried: Carried,
    pool: &mut Pool,
)
    requires blank { CanStandIn carried }
    requires there { Covers pool.old
        (refs (slice_index_or tray.old.messages.items slot (message_left (carried_tree carried) message.old))) }
    ensures set { tray.new ≡
        record tray.old {
          messages =
              buffer (slice_set tray.old.messages.items slot (message_left (carried_tree carried) message.old))
              tray.old.messages.capacity;
        } }
    ensures left { IsSpent message.new }
    ensures returned { Returned pool.old pool.new
        (refs (slice_index_or tray.old.messages.items slot (message_left (carried_tree carried) message.old))) }
{
    match message {
        Some(message) => tray.replace_from(slot as usize, message, pool),
        None => tray.replace(slot as usize, stand_in(carried), pool),
    }
}

/// The reference of a row's message goes back, if there is one.
fn let_go_if_any(message: &mut Option<PoolMessage>, pool: &mut Pool)
    requires { Covers pool.old (refs_if message.old) }
    ensures left { IsSpent message.new }
    ensures returned { Returned pool.old pool.new (refs_if message.old) }
{
    if let Some(message) = message {
        message.let_go(pool);
    }
}

/// Ends a row whose message has no bytes left.
fn close_row(row: PoolRow)
    requires { IsSpent row.message }
{
    let PoolRow {
        numbers: _,
        message,
    } = row;
    if let Some(message) = message {
        message.close();
    }
}

/// Puts the numbers of a row into the slots of a scope.
fn set_numbers(numbers: &mut Vec<u32>, slots: &[u8], values: &Fields)
    ensures numbers { numbers.new.items ≡ numbers_filled slots.now values.now numbers.old.items }
    ensures capacity { vec_capacity numbers.new ≡ vec_capacity numbers.old }
{
    for k in 0..values.len() {
        if (k as usize) < slots.len() {
            let slot = usize::from(slots[k as usize]);
            if slot < numbers.len() {
                numbers[slot] = values.at(k);
            }
        }
    }
}

/// Whether what a taken row leaves in the scope can't stand there.
fn is_misfit(taken: &Taken) -> bool
    ensures { JudgesTaken taken.now result }
{
    match taken.message {
        Some(slot) => is_too_wide(slot.carried),
        None => false,
    }
}

/// Takes the front row of a queue into the scope, and answers whether there was one.
pub(crate) fn take<K: Start>(
    desk: &mut FileDesk,
    pool: &mut Pool,
    cell: u8,
    index: u32,
    taken: &Taken,
) -> Result<bool, NoRoom>
    requires { IsReady K.begun pool.old desk.old }
    ensures ready { IsReady K.begun pool.new desk.new }
    ensures found { IfOk result
        (λ found. found ≡ is_found (row_at (laid pool.old (stock_of desk.old)).state cell index 0)) }
    ensures shown { OnOk result
        (laid pool.new (stock_of desk.new) ≡
        taken_row cell index (taken_tree taken.now) (laid pool.old (stock_of desk.old))) }
    ensures spent { Spent (room_of pool.old desk.old) (room_of pool.new desk.new) (taken_need (taken_tree taken.now))
        result }
{
    if is_misfit(taken) {
        return Err(NoRoom::Misfit);
    }
    if desk.cells.len(cell, index) == 0 {
        return Ok(false);
    }
    let Some(mut row) = desk.cells.take(cell, index) else {
        unreachable!();
    };
    set_numbers(&mut desk.numbers, &taken.numbers, &row.numbers);
    match taken.message {
        Some(slot) => {
            put_message(
                &mut desk.tray,
                slot.slot,
                &mut row.message,
                slot.carried,
                pool,
            );
            close_row(row);
            Ok(true)
        }
        None => {
            let_go_if_any(&mut row.message, pool);
            close_row(row);
            Ok(true)
        }
    }
}

//! Work at the hand.

ghost use Rattle.std.specs.Prelude.{◌≡◌, [], ◌∷◌, ◌++◌, slice_index_or, IfSome, IfNone, OnOk};
ghost use Rattle.msg_core.specs.Chain.{plain};
ghost use Rattle.msg_core.specs.Parts as parts;
ghost use Rattle.layer_desk.specs.Laid.{lifted, front_changed, front_joined};
ghost use Rattle.layer_desk.specs.Need.{one_slot, one_in_hand};
ghost use Rattle.layer_desk.specs.Spent.{Spent, Lifted};
ghost use Rattle.live_layer.specs.Stock.{laid};
ghost use Rattle.live_layer.specs.Ready.{stock_of, room_of, IsReady};

use crate::desk::FileDesk;
use layer_desk::{NoRoom, Start};
use pool_message::{Messages, PoolMessage};
use slot_pool::Pool;

/// Takes the newest message out of a hand, if there is one.
pub(crate) fn take_last(hand: &mut Messages) -> Option<PoolMessage>
    ensures some { IfSome result (λ m. hand.old.items ≡ hand.new.items ++ m ∷ []) }
    ensures none { IfNone result ((hand.old.items ≡ []) × (hand.new ≡ hand.old)) }
    ensures capacity { hand.new.capacity ≡ hand.old.capacity }
{
    hand.pop()
}

/// Takes a message of the scope into the hand; the scope keeps it. One that isn't there has no bytes.
#[inline(always)]
pub(crate) fn lift<K: Start>(desk: &mut FileDesk, pool: &mut Pool, slot: u8) -> Result<(), NoRoom>
    requires { IsReady K.begun pool.old desk.old }
    ensures ready { IsReady K.begun pool.new desk.new }
    ensures shown { OnOk result (laid pool.new (stock_of desk.new) ≡
        lifted (slice_index_or (laid pool.old (stock_of desk.old)).scope.messages slot (plain []))
        (laid pool.old (stock_of desk.old))) }
    ensures spent { Lifted (room_of pool.old desk.old) (room_of pool.new desk.new) one_in_hand result }
{
    if desk.hand.len() >= desk.hand.capacity() {
        return Err(NoRoom::Hand);
    }
    match desk.tray.message(usize::from(slot)) {
        Some(message) => {
            desk.hand.push_kept(message, pool);
            Ok(())
        }
        None => {
            desk.hand.push_bare();
            Ok(())
        }
    }
}

/// Takes a message without bytes into the hand.
pub(crate) fn lift_nothing<K: Start>(desk: &mut FileDesk, pool: &Pool) -> Result<(), NoRoom>
    requires { IsReady K.begun pool.now desk.old }
    ensures ready { IsReady K.begun pool.now desk.new }
    ensures shown { OnOk result
        (laid pool.now (stock_of desk.new) ≡ lifted (plain []) (laid pool.now (stock_of desk.old))) }
    ensures spent { Lifted (room_of pool.now desk.old) (room_of pool.now desk.new) one_in_hand result }
{
    if desk.hand.len() >= desk.hand.capacity() {
        return Err(NoRoom::Hand);
    }
    desk.hand.push_bare();
    Ok(())
}

/// Leaves of the newest message in hand at most `count` bytes from byte `from` on, and none of its headers.
pub(crate) fn cut<K: Start>(desk: &mut FileDesk, pool: &Pool, from: u32, count: u32)
    requires { IsReady K.begun pool.now desk.old }
    ensures ready { IsReady K.begun pool.now desk.new }
    ensures shown { laid pool.now (stock_of desk.new) ≡
        front_changed (λ m. parts.cut m from count) (laid pool.now (stock_of desk.old)) }
    ensures free { room_of pool.now desk.new ≡ room_of pool.now desk.old }
{
    if let Some(message) = take_last(&mut desk.hand) {
        desk.hand.push(message.cut(from, count));
    }
}

/// Leaves of the newest message in hand the bytes from byte `from` on, and its headers.
pub(crate) fn tail<K: Start>(desk: &mut FileDesk, pool: &Pool, from: u32)
    requires { IsReady K.begun pool.now desk.old }
    ensures ready { IsReady K.begun pool.now desk.new }
    ensures shown { laid pool.now (stock_of desk.new) ≡
        front_changed (λ m. parts.tail m from) (laid pool.now (stock_of desk.old)) }
    ensures free { room_of pool.now desk.new ≡ room_of pool.now desk.old }
{
    if let Some(message) = take_last(&mut desk.hand) {
        desk.hand.push(message.tail(from));
    }
}

/// Joins the two newest messages in hand, with the older as the front part, in a slot of the pool.
pub(crate) fn join<K: Start>(desk: &mut FileDesk, pool: &mut Pool) -> Result<(), NoRoom>
    requires { IsReady K.begun pool.old desk.old }
    ensures ready { IsReady K.begun pool.new desk.new }
    ensures shown { OnOk result (laid pool.new (stock_of desk.new) ≡ front_joined (laid pool.old (stock_of desk.old))) }
    ensures spent { Spent (room_of pool.old desk.old) (room_of pool.new desk.new) one_slot result }
{
    let Some(second) = take_last(&mut desk.hand) else {
        return Ok(());
    };
    let Some(first) = take_last(&mut desk.hand) else {
        desk.hand.push(second);
        return Ok(());
    };
    match PoolMessage::join(first, second, pool) {
        Some(message) => {
            desk.hand.push(message);
            Ok(())
        }
        None => Err(NoRoom::Slot),
    }
}

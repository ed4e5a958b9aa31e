//! What a visit leaves behind.

ghost use Rattle.std.specs.Prelude.{◌≡◌, []};
ghost use Rattle.layer_desk.specs.Laid.{left};
ghost use Rattle.layer_desk.specs.Need.{nothing_needed};
ghost use Rattle.layer_desk.specs.Spent.{SpentAtMost};
ghost use Rattle.live_layer.specs.Scope.{without_messages, with_messages_alone};
ghost use Rattle.live_layer.specs.Stock.{laid};
ghost use Rattle.live_layer.specs.Ready.{stock_of, room_of, IsReady};

use crate::desk::FileDesk;
use layer_desk::Start;
use slot_pool::Pool;

/// Gives all messages of the scope back.
#[inline(always)]
pub(crate) fn forget_messages<K: Start>(desk: &mut FileDesk, pool: &mut Pool)
    requires { IsReady K.begun pool.old desk.old }
    ensures ready { IsReady K.begun pool.new desk.new }
    ensures shown { laid pool.new (stock_of desk.new) ≡ without_messages (laid pool.old (stock_of desk.old)) }
    ensures spent { SpentAtMost (room_of pool.old desk.old) (room_of pool.new desk.new) nothing_needed }
    ensures empty { desk.new.tray.messages.items ≡ [] }
    ensures places { (desk.new.tray.messages.capacity ≡ desk.old.tray.messages.capacity) ×
        (desk.new.numbers ≡ desk.old.numbers) × (desk.new.tray.arrived ≡ desk.old.tray.arrived) }
{
    desk.tray.clear_messages(pool);
}

/// Lets the numbers of the scope go, and gives what arrived back.
pub(crate) fn forget_rest<K: Start>(desk: &mut FileDesk, pool: &mut Pool)
    requires { IsReady K.begun pool.old desk.old }
    ensures ready { IsReady K.begun pool.new desk.new }
    ensures shown { laid pool.new (stock_of desk.new) ≡ with_messages_alone (laid pool.old (stock_of desk.old)) }
    ensures spent { SpentAtMost (room_of pool.old desk.old) (room_of pool.new desk.new) nothing_needed }
{
    desk.numbers.clear();
    desk.tray.drop_arrived(pool);
}

/// Lets the scope of a visit go, and what arrived: all their references go back to the pool.
#[inline(always)]
pub(crate) fn leave<K: Start>(desk: &mut FileDesk, pool: &mut Pool)
    requires { IsReady K.begun pool.old desk.old }
    ensures ready { IsReady K.begun pool.new desk.new }
    ensures shown { laid pool.new (stock_of desk.new) ≡ left (laid pool.old (stock_of desk.old)) }
    ensures spent { SpentAtMost (room_of pool.old desk.old) (room_of pool.new desk.new) nothing_needed }
{
    forget_messages::<K>(desk, pool);
    forget_rest::<K>(desk, pool);
}

//! Blocks that are entered.

ghost use Rattle.std.specs.Prelude.{◌≡◌, ◌+◌, ◌≤◌, [], ◌++◌, None, length, vec_capacity};
ghost use Rattle.layer_mean.specs.Event.{arguments};
ghost use Rattle.layer_desk.specs.Laid.{enters};
ghost use Rattle.layer_mean.specs.Envelope.{event_in};
ghost use Rattle.layer_desk.specs.Need.{entry_need};
ghost use Rattle.layer_desk.specs.Spent.{SpentAtMost, Suffices};
ghost use Rattle.live_layer.specs.Entered.{entry_numbers, with_numbers, with_arrived, with_bare};
ghost use Rattle.live_layer.specs.Fits.{most_bound, IsShortIf};
ghost use Rattle.live_layer.specs.Ready.{stock_of, room_of, IsReady};
ghost use Rattle.live_layer.specs.Stock.{laid};

use crate::desk::FileDesk;
use crate::leaves::forget_messages;
use layer_desk::Start;
use layer_mean::Envelope;
use layer_words::Kind;
use msg_core::Fields;
use slot_pool::Pool;
use typed_layer::Handler;

/// Puts the number arguments of an event, in the order in which they are written.
fn put_arguments(numbers: &mut Vec<u32>, envelope: Envelope)
    requires { length numbers.old.items + 2 ≤ vec_capacity numbers.old }
    ensures numbers { numbers.new.items ≡ numbers.old.items ++ arguments (event_in envelope None) }
    ensures capacity { vec_capacity numbers.new ≡ vec_capacity numbers.old }
{
    match envelope.kind {
        Kind::Cast | Kind::Send => numbers.push_reserved(envelope.peer),
        Kind::Stable | Kind::Ack => {
            numbers.push_reserved(envelope.a);
            numbers.push_reserved(envelope.b);
        }
        _ => numbers.push_reserved(envelope.a),
    }
}

/// Puts some numbers after others.
fn put_fields(numbers: &mut Vec<u32>, fields: &Fields)
    requires { length numbers.old.items + 4 ≤ vec_capacity numbers.old }
    ensures numbers { numbers.new.items ≡ numbers.old.items ++ fields.now }
    ensures few { length numbers.new.items ≤ length numbers.old.items + 4 }
    ensures capacity { vec_capacity numbers.new ≡ vec_capacity numbers.old }
{
    for k in 0..fields.len() {
        numbers.push_reserved(fields.at(k));
    }
}

/// The numbers of the scope in which a block that declares `count` numbers is entered.
fn fill_numbers(numbers: &mut Vec<u32>, envelope: Envelope, fields: &Fields, count: u8)
    requires { count + most_bound ≤ vec_capacity numbers.old }
    ensures numbers { numbers.new.items ≡ entry_numbers envelope fields.now count }
    ensures capacity { vec_capacity numbers.new ≡ vec_capacity numbers.old }
{
    numbers.clear();
    put_arguments(numbers, envelope);
    put_fields(numbers, fields);
    for _ in 0..count {
        numbers.push_reserved(0);
    }
}

/// Makes the numbers of the scope anew, for a block that declares `count` of its own.
fn bind_numbers<K: Start>(
    desk: &mut FileDesk,
    pool: &Pool,
    envelope: Envelope,
    fields: &Fields,
    count: u8,
)
    requires ready { IsReady K.begun pool.now desk.old }
    requires room { count + most_bound ≤ vec_capacity desk.old.numbers }
    ensures ready { IsReady K.begun pool.now desk.new }
    ensures shown { laid pool.now (stock_of desk.new) ≡ with_numbers (entry_numbers envelope fields.now count)
        (laid pool.now (stock_of desk.old)) }
    ensures free { room_of pool.now desk.new ≡ room_of pool.now desk.old }
    ensures messages { desk.new.tray.messages ≡ desk.old.tray.messages }
    ensures arrived { desk.new.tray.arrived ≡ desk.old.tray.arrived }
{
    fill_numbers(&mut desk.numbers, envelope, fields, count);
}

/// The message that arrived comes into the scope, which is empty.
fn bind_arrived<K: Start>(desk: &mut FileDesk, pool: &Pool)
    requires ready { IsReady K.begun pool.now desk.old }
    requires empty { desk.old.tray.messages.items ≡ [] }
    requires short { IsShortIf desk.old.tray.arrived }
    ensures ready { IsReady K.begun pool.now desk.new }
    ensures shown { laid pool.now (stock_of desk.new) ≡ with_arrived (laid pool.now (stock_of desk.old)) }
    ensures free { room_of pool.now desk.new ≡ room_of pool.now desk.old }
    ensures count { length desk.new.tray.messages.items ≤ 1 }
    ensures capacity { desk.new.tray.messages.capacity ≡ desk.old.tray.messages.capacity }
{
    desk.tray.bind();
}

/// Puts `count` messages without bytes after those of the scope.
fn bind_bare<K: Start>(desk: &mut FileDesk, pool: &Pool, count: u8)
    requires ready { IsReady K.begun pool.now desk.old }
    requires room { length desk.old.tray.messages.items + count ≤ desk.old.tray.messages.capacity }
    ensures ready { IsReady K.begun pool.now desk.new }
    ensures shown { laid pool.now (stock_of desk.new) ≡ with_bare count (laid pool.now (stock_of desk.old)) }
    ensures free { room_of pool.now desk.new ≡ room_of pool.now desk.old }
{
    for _ in 0..count {
        desk.tray.push_message();
    }
}

/// Makes the scope of a handler's block: the event's numbers, the fields of its header and the message that arrived,
/// and then the numbers and messages that the block declares. The messages of the scope before go back.
pub(crate) fn enter<K: Start>(
    desk: &mut FileDesk,
    pool: &mut Pool,
    envelope: Envelope,
    fields: &Fields,
    handler: &Handler,
)
    requires ready { IsReady K.begun pool.old desk.old }
    requires room { Suffices (room_of pool.old desk.old)
        (entry_need K.begun.layout handler.now.numbers handler.now.messages
        (laid pool.old (stock_of desk.old)).arrived) }
    ensures ready { IsReady K.begun pool.new desk.new }
    ensures shown { laid pool.new (stock_of desk.new) ≡
        enters envelope fields.now handler.now.numbers handler.now.messages (laid pool.old (stock_of desk.old)) }
    ensures spent { SpentAtMost (room_of pool.old desk.old) (room_of pool.new desk.new)
        (entry_need K.begun.layout handler.now.numbers handler.now.messages
        (laid pool.old (stock_of desk.old)).arrived) }
{
    forget_messages::<K>(desk, pool);
    bind_numbers::<K>(desk, pool, envelope, fields, handler.numbers);
    bind_arrived::<K>(desk, pool);
    bind_bare::<K>(desk, pool, handler.messages);
}

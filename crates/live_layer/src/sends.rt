//! What a desk sends, and the message that arrived.

ghost use Rattle.std.specs.Prelude.{◌≡◌, ◌<◌, [], length, slice_get, None, Some, option_map, OnOk};
ghost use Rattle.std.specs.List.{AllByRecursion};
ghost use Rattle.circular_buffer.specs.Buffer.{buffer};
ghost use Rattle.layer_desk.specs.Laid.{sends, sends_first, sends_local, first_header, header_popped, passes_on};
ghost use Rattle.layer_desk.specs.Laid.{left};
ghost use Rattle.layer_mean.specs.Envelope.{event_in};
ghost use Rattle.layer_mean.specs.Headers.{said_tag, said_fields};
ghost use Rattle.layer_desk.specs.Need.{one_place, headers_of, passing_need};
ghost use Rattle.layer_desk.specs.Spent.{Spent, SpentAtMost};
ghost use Rattle.pool_message.specs.Seen.{seen_if, bodiless};
ghost use Rattle.pool_message.specs.Sent.{sent_after};
ghost use Rattle.pool_message.specs.Tray.{also_sent};
ghost use Rattle.live_layer.specs.Fits.{IsShort, IsShortIf};
ghost use Rattle.live_layer.specs.Scope.{without_messages};
ghost use Rattle.live_layer.specs.Sent.{last_after};
ghost use Rattle.live_layer.specs.Stock.{laid};
ghost use Rattle.live_layer.specs.Ready.{stock_of, room_of, IsReady};

use crate::desk::{FileDesk, MOST_ABOVE};
use crate::leaves::{forget_rest, leave};
use layer_desk::{NoRoom, Sending, Start};
use layer_mean::Envelope;
use layer_words::Dir;
use msg_core::Fields;
use pool_message::{MessagePlace, Messages, PoolMessage, Tray};
use slot_pool::Pool;

/// Turns the newest message in hand, where it lies, into what is sent: going down it gets a header.
fn put_last_after(sending: &Sending, hand: &mut Messages)
    requires { AllByRecursion IsShort hand.old.items }
    ensures { hand.new ≡
        buffer (last_after sending.now.direction sending.now.header hand.old.items) hand.old.capacity }
{
    match sending.direction {
        Dir::Up => {}
        Dir::Down => hand.push_header_on_last(sending.header),
    }
}

/// Turns a message that arrived, where it lies, into what is sent.
fn put_after(sending: &Sending, tray: &mut Tray)
    requires { IsShortIf tray.old.arrived }
    ensures { tray.new ≡ record tray.old {
      arrived = option_map (sent_after sending.now.direction sending.now.header) tray.old.arrived;
    } }
{
    match sending.direction {
        Dir::Up => {}
        Dir::Down => tray.push_header(sending.header),
    }
}

/// Sends an event without a message, if there is a place for it.
#[inline(always)]
pub(crate) fn send<K: Start>(
    desk: &mut FileDesk,
    pool: &Pool,
    direction: Dir,
    envelope: Envelope,
) -> Result<(), NoRoom>
    requires { IsReady K.begun pool.now desk.old }
    ensures ready { IsReady K.begun pool.now desk.new }
    ensures shown { OnOk result
        (laid pool.now (stock_of desk.new) ≡
        sends direction (event_in envelope None) (laid pool.now (stock_of desk.old))) }
    ensures spent { Spent (room_of pool.now desk.old) (room_of pool.now desk.new) one_place result }
{
    if desk.tray.len() >= desk.places {
        return Err(NoRoom::Place);
    }
    desk.tray.send_bare(direction, envelope);
    Ok(())
}

/// Sends an event with the newest message in hand, going down after a header.
pub(crate) fn send_first<K: Start>(
    desk: &mut FileDesk,
    pool: &Pool,
    sending: &Sending,
) -> Result<(), NoRoom>
    requires { IsReady K.begun pool.now desk.old }
    ensures ready { IsReady K.begun pool.now desk.new }
    ensures shown { OnOk result
        (laid pool.now (stock_of desk.new) ≡
        sends_first sending.now.direction sending.now.envelope sending.now.header
        (laid pool.now (stock_of desk.old))) }
    ensures spent { Spent (room_of pool.now desk.old) (room_of pool.now desk.new) one_place result }
{
    if desk.tray.len() >= desk.places {
        return Err(NoRoom::Place);
    }
    if desk.hand.is_empty() {
        return Ok(());
    }
    put_last_after(sending, &mut desk.hand);
    desk.tray
        .send_last(sending.direction, sending.envelope, &mut desk.hand);
    Ok(())
}

/// A message without bytes, going down after a header.
fn nothing_after(sending: &Sending) -> PoolMessage
    ensures { result ≡ sent_after sending.now.direction sending.now.header (bodiless []) }
{
    let mut message = PoolMessage::new();
    match sending.direction {
        Dir::Up => {}
        Dir::Down => message.push_header(sending.header),
    }
    message
}

/// Sends an event with a message without bytes, going down after a header.
#[inline(never)]
fn send_nothing(tray: &mut Tray, sending: &Sending)
    requires { length tray.old.sent.items < tray.old.sent.capacity }
    ensures { tray.new ≡ also_sent sending.now.direction sending.now.envelope
        (Some (sent_after sending.now.direction sending.now.header (bodiless []))) tray.old }
{
    let mut message = nothing_after(sending);
    let mut place = MessagePlace::new();
    place.fill(&mut message);
    message.close();
    tray.send_from(sending.direction, sending.envelope, &mut place);
    place.close();
}

/// Sends an event with a message that is missing from the scope and so has no bytes, going down after a header.
fn send_missing<K: Start>(desk: &mut FileDesk, pool: &Pool, sending: &Sending, slot: u8)
    requires ready { IsReady K.begun pool.now desk.old }
    requires places { length desk.old.tray.sent.items < desk.old.places }
    requires none { slice_get desk.old.tray.messages.items slot ≡ None }
    ensures ready { IsReady K.begun pool.now desk.new }
    ensures shown { laid pool.now (stock_of desk.new) ≡
        sends_local sending.now.direction sending.now.envelope sending.now.header slot
        (laid pool.now (stock_of desk.old)) }
    ensures spent { SpentAtMost (room_of pool.now desk.old) (room_of pool.now desk.new) one_place }
{
    send_nothing(&mut desk.tray, sending);
}

/// Sends an event with a message of the scope, going down after a header; the scope keeps it.
pub(crate) fn send_local<K: Start>(
    desk: &mut FileDesk,
    pool: &mut Pool,
    sending: &Sending,
    slot: u8,
) -> Result<(), NoRoom>
    requires { IsReady K.begun pool.old desk.old }
    ensures ready { IsReady K.begun pool.new desk.new }
    ensures shown { OnOk result (laid pool.new (stock_of desk.new) ≡
        sends_local sending.now.direction sending.now.envelope sending.now.header slot
        (laid pool.old (stock_of desk.old))) }
    ensures spent { Spent (room_of pool.old desk.old) (room_of pool.new desk.new) one_place result }
{
    if desk.tray.len() >= desk.places {
        return Err(NoRoom::Place);
    }
    let place = usize::from(slot);
    match desk.tray.message(place) {
        Some(_message) => {
            desk.tray.send_message(sending, place, pool);
            Ok(())
        }
        None => {
            send_missing::<K>(desk, pool, sending, slot);
            Ok(())
        }
    }
}

/// Sends an event with a message of the scope, going down after a header, and gives all others of the scope back.
fn send_last_local<K: Start>(desk: &mut FileDesk, pool: &mut Pool, sending: &Sending, slot: u8)
    requires ready { IsReady K.begun pool.old desk.old }
    requires places { length desk.old.tray.sent.items < desk.old.places }
    requires some { slot < length desk.old.tray.messages.items }
    ensures ready { IsReady K.begun pool.new desk.new }
    ensures shown { laid pool.new (stock_of desk.new) ≡ without_messages
        (sends_local sending.now.direction sending.now.envelope sending.now.header slot
        (laid pool.old (stock_of desk.old))) }
    ensures spent { SpentAtMost (room_of pool.old desk.old) (room_of pool.new desk.new) one_place }
{
    desk.tray.send_and_clear(sending, usize::from(slot), pool);
}

/// Sends an event with a message of the scope, going down after a header, and lets the scope and what arrived go.
pub(crate) fn send_local_and_leave<K: Start>(
    desk: &mut FileDesk,
    pool: &mut Pool,
    sending: &Sending,
    slot: u8,
) -> Result<(), NoRoom>
    requires { IsReady K.begun pool.old desk.old }
    ensures ready { IsReady K.begun pool.new desk.new }
    ensures shown { OnOk result (laid pool.new (stock_of desk.new) ≡ left
        (sends_local sending.now.direction sending.now.envelope sending.now.header slot
        (laid pool.old (stock_of desk.old)))) }
    ensures spent { Spent (room_of pool.old desk.old) (room_of pool.new desk.new) one_place result }
{
    if desk.tray.len() >= desk.places {
        return Err(NoRoom::Place);
    }
    if desk.tray.has_message(usize::from(slot)) {
        send_last_local::<K>(desk, pool, sending, slot);
        forget_rest::<K>(desk, pool);
    } else {
        send_missing::<K>(desk, pool, sending, slot);
        leave::<K>(desk, pool);
    }
    Ok(())
}

/// Takes the first header off the message that arrived: answers its tag, 0 where there is none, and fills in its
/// fields.
pub(crate) fn pop_header<K: Start>(desk: &mut FileDesk, pool: &Pool, fields: &mut Fields) -> u8
    requires ready { IsReady K.begun pool.now desk.old }
    requires none { fields.old ≡ [] }
    ensures ready { IsReady K.begun pool.now desk.new }
    ensures tag { result ≡ said_tag (first_header (laid pool.now (stock_of desk.old)).arrived) }
    ensures fields { fields.new ≡ said_fields (first_header (laid pool.now (stock_of desk.old)).arrived) }
    ensures shown { laid pool.now (stock_of desk.new) ≡ header_popped (laid pool.now (stock_of desk.old)) }
    ensures free { room_of pool.now desk.new ≡ room_of pool.now desk.old }
{
    desk.tray.pop_header(fields)
}

/// The number of headers of the message that arrived.
fn arrived_headers(desk: &FileDesk, pool: &Pool) -> u32
    ensures { result ≡ headers_of (seen_if pool.now desk.now.tray.arrived) }
{
    match desk.tray.arrived() {
        Some(message) => message.headers().len(),
        None => 0,
    }
}

/// Sends an event on with the message that arrived, if one did, going down after a header.
pub(crate) fn pass_on<K: Start>(
    desk: &mut FileDesk,
    pool: &Pool,
    sending: &Sending,
) -> Result<(), NoRoom>
    requires { IsReady K.begun pool.now desk.old }
    ensures ready { IsReady K.begun pool.now desk.new }
    ensures shown { OnOk result
        (laid pool.now (stock_of desk.new) ≡
        passes_on sending.now.direction sending.now.envelope sending.now.header
        (laid pool.now (stock_of desk.old))) }
    ensures spent { Spent (room_of pool.now desk.old) (room_of pool.now desk.new)
        (passing_need (laid pool.now (stock_of desk.old)).arrived) result }
{
    if desk.tray.len() >= desk.places {
        return Err(NoRoom::Place);
    }
    if arrived_headers(desk, pool) > MOST_ABOVE {
        return Err(NoRoom::Headers);
    }
    put_after(sending, &mut desk.tray);
    desk.tray.send_arrived(sending.direction, sending.envelope);
    Ok(())
}

//! What a layer has before it of the events that it takes and sends.

ghost use Rattle.std.specs.Prelude.{◌≡◌, ◌<◌, [], ◌∷◌, ◌++◌, drop, length, Some, None, option_map, option_copied};
ghost use Rattle.std.specs.Prelude.{is_some, true};
ghost use Rattle.circular_buffer.specs.Buffer.{buffer};
ghost use Rattle.slot_pool.specs.References.{Covers};
ghost use Rattle.pool_message.specs.Moves.{CanKeep, Kept, Returned};
ghost use Rattle.pool_message.specs.Seen.{refs, refs_if, bodiless};
ghost use Rattle.pool_message.specs.Sent.{first_sent, sent_after, pool_event, envelope_of, CanPass};
ghost use Rattle.pool_message.specs.Tray.{first_message, arrived_at, bound_at, sent_at, message_in, StandsSo};

use crate::event::PoolEvent;
use crate::events::Events;
use crate::list::begin_event;
use crate::message::PoolMessage;
use crate::message_place::MessagePlace;
use crate::messages::Messages;
use layer_desk::Sending;
use layer_mean::Envelope;
use layer_words::Dir;
use msg_core::{Fields, Header};
use slot_pool::Pool;
use std::alloc::{AllocError, Global};
use std::marker::Model;
use std::mem;

/// How the first event of a tray's list stands.
#[derive(Clone, Copy)]
enum Front {
    /// It was sent, as all others were.
    Gone,
    /// It is the event that the layer takes, and its message, if it has one, arrived.
    Arrived,
    /// It is the event that the layer takes, and its message is the first of the scope.
    Bound,
}

/// The event that a layer takes, the messages of the scope of its handler's block, and what the layer sends. The event
/// stays where it stands in the list, before the others, and its message with it: so nothing is moved where the
/// layer sends it on. A tray can't be let go: it is emptied, and then closed.
pub struct Tray {
    front: Front,
    events: Events,
    /// The messages of the scope after one that is bound.
    messages: Messages,
}

impl Model for Tray {
    ghost use Rattle.std.specs.Prelude.{◌≡◌, ◌++◌, ◌-◌, ◌<◌, ◌≤◌, length};
    ghost use Rattle.circular_buffer.specs.Buffer.{buffer};
    ghost use Rattle.pool_message.specs.Tray.{OnTray, arrived_at, bound_at, sent_at, StandsSo, HasSpare};

    ghost Value = { OnTray };

    ghost view = { λ t. record {
      arrived = arrived_at t.front t.events.items;
      messages = buffer (bound_at t.front t.events.items ++ t.messages.items) t.messages.capacity;
      sent = buffer (sent_at t.front t.events.items) (t.events.capacity - 1);
    } };

    ghost invariant = { λ t. StandsSo t.front t.events.items × (1 ≤ t.events.capacity) × HasSpare t.front t.messages };
}

impl Tray {
    ghost use Rattle.std.specs.Prelude.{◌≡◌, nat_lt, ◌+◌, ◌-◌, ◌<◌, ◌≤◌, [], ◌∷◌, ◌++◌, drop, length, slice_get};
    ghost use Rattle.std.specs.Prelude.{slice_index_or, slice_set, Some, None, option_copied, option_map};
    ghost use Rattle.std.specs.Prelude.{option_to_list, IfOk, IfSome};
    ghost use Rattle.circular_buffer.specs.Buffer.{buffer, last_item};
    ghost use Rattle.slot_pool.specs.References.{Covers};
    ghost use Rattle.layer_mean.specs.Headers.{said_tag, said_fields};
    ghost use Rattle.msg_core.specs.Headers.{most_headers};
    ghost use Rattle.pool_message.specs.Seen.{refs, refs_if, bodiless};
    ghost use Rattle.pool_message.specs.Sent.{first_sent, most_sent, first_header, with_header, without_first};
    ghost use Rattle.pool_message.specs.Sent.{sent_after, envelope_of, CanPass};
    ghost use Rattle.pool_message.specs.Moves.{CanKeep, Kept, Returned};
    ghost use Rattle.pool_message.specs.Piled.{pile_refs, without_last};
    ghost use Rattle.pool_message.specs.Tray.{also_sent, message_at};

    /// No event, and no message in a scope with room for `messages`.
    pub fn with_messages(alloc: Global, messages: usize) -> Result<Tray, AllocError>
        ensures { IfOk result (λ t. t ≡ record { arrived = None; messages = buffer [] messages; sent = buffer [] 0 }) }
    {
        let events = Events::with_places(alloc, 1)?;
        match Messages::with_places(alloc, messages) {
            Ok(messages) => Ok(Tray {
                front: Front::Gone,
                events,
                messages,
            }),
            Err(error) => {
                events.close();
                Err(error)
            }
        }
    }

    /// Takes the first of these events, and answers its direction and its envelope; what is sent will come after the
    /// others. `events` gets what was sent before. Before the call nothing has arrived, and the scope is empty.
    pub fn begin(&mut self, events: &mut Events) -> (Dir, Envelope)
        requires some { 0 < length events.old.items }
        requires within { length events.old.items ≤ events.old.capacity }
        requires idle { (self.old.arrived ≡ None) × (self.old.messages.items ≡ []) }
        ensures begun { self.new ≡ record {
          arrived = (first_sent events.old.items).1.message;
          messages = self.old.messages;
          sent = buffer (drop 1 events.old.items) (events.old.capacity - 1);
        } }
        ensures sent { events.new ≡ buffer self.old.sent.items (self.old.sent.capacity + 1) }
        ensures first { result ≡ ((first_sent events.old.items).0, envelope_of (first_sent events.old.items).1) }
    {
        settle(self.front, &mut self.events);
        self.front = Front::Arrived;
        mem::swap(&mut self.events, events);
        way_of(&self.events)
    }

    /// Hands back in `events` what was sent, and has these events in its place. Before the call no message that arrived
    /// is left, and the scope is empty.
    pub fn end(&mut self, events: &mut Events)
        requires places { 1 ≤ events.old.capacity }
        requires idle { (self.old.arrived ≡ None) × (self.old.messages.items ≡ []) }
        ensures ended { self.new ≡ record self.old { sent = buffer events.old.items (events.old.capacity - 1) } }
        ensures sent { events.new ≡ buffer self.old.sent.items (self.old.sent.capacity + 1) }
    {
        settle(self.front, &mut self.events);
        self.front = Front::Gone;
        mem::swap(&mut self.events, events);
    }

    /// The message that arrived, if there is one that isn't bound.
    pub fn arrived(&self) -> Option<&PoolMessage>
        ensures { option_copied result ≡ self.now.arrived }
    {
        match self.front {
            Front::Arrived => message_of(&self.events),
            Front::Gone | Front::Bound => None,
        }
    }

    /// Puts a header before those of the message that arrived, if there is one.
    pub fn push_header(&mut self, header: Header)
        requires { IfSome self.old.arrived (λ m. length m.headers < most_headers) }
        ensures { self.new ≡ record self.old { arrived = option_map (with_header header) self.old.arrived } }
    {
        match self.front {
            Front::Arrived => self.events.first_mut().1.message.push_header(header),
            Front::Gone | Front::Bound => {}
        }
    }

    /// Takes the first header off the message that arrived, if there is one: says its tag, 0 where there is none, and
    /// its fields.
    pub fn pop_header(&mut self, fields: &mut Fields) -> u8
        requires none { fields.old ≡ [] }
        ensures tag { result ≡ said_tag (first_header self.old.arrived) }
        ensures fields { fields.new ≡ said_fields (first_header self.old.arrived) }
        ensures rest { self.new ≡ record self.old { arrived = option_map without_first self.old.arrived } }
    {
        match self.front {
            Front::Arrived => self.events.first_mut().1.message.pop_header(fields),
            Front::Gone | Front::Bound => 0,
        }
    }

    /// The message that arrived becomes the only one of the scope, which was empty.
    pub fn bind(&mut self)
        requires empty { self.old.messages.items ≡ [] }
        requires room { 1 ≤ self.old.messages.capacity }
        ensures { self.new ≡ record self.old
            { arrived = None; messages = buffer (option_to_list self.old.arrived) self.old.messages.capacity } }
    {
        if self.arrived().is_some() {
            self.front = Front::Bound;
        }
    }

    /// Gives the reference of the message that arrived back, if there is one.
    pub fn drop_arrived(&mut self, pool: &mut Pool)
        requires { Covers pool.old (refs_if self.old.arrived) }
        ensures gone { self.new ≡ record self.old { arrived = None } }
        ensures returned { Returned pool.old pool.new (refs_if self.old.arrived) }
    {
        match self.front {
            Front::Arrived => self.events.first_mut().1.message.let_go(pool),
            Front::Gone | Front::Bound => {}
        }
    }

    /// Whether the scope has a message number `k`.
    pub fn has_message(&self, k: usize) -> bool
        ensures { result ≡ nat_lt k (length self.now.messages.items) }
    {
        match self.front {
            Front::Bound => k == 0 || k - 1 < self.messages.len(),
            Front::Gone | Front::Arrived => k < self.messages.len(),
        }
    }

    /// The message number `k` of the scope, if there is one.
    pub fn message(&self, k: usize) -> Option<&PoolMessage>
        ensures { option_copied result ≡ slice_get self.now.messages.items k }
    {
        match self.front {
            Front::Bound => {
                if k > 0 {
                    self.messages.get(k - 1)
                } else {
                    message_of(&self.events)
                }
            }
            Front::Gone | Front::Arrived => self.messages.get(k),
        }
    }

    /// Puts a message without headers and bytes after those of the scope.
    pub fn push_message(&mut self)
        requires { length self.old.messages.items < self.old.messages.capacity }
        ensures { self.new ≡ record self.old
            { messages = buffer (self.old.messages.items ++ bodiless [] ∷ []) self.old.messages.capacity } }
    {
        self.messages.push_bare();
    }

    /// Puts a message in the place of message number `k` of the scope, whose reference goes back; where there is none,
    /// the new message's reference goes back.
    pub fn replace(&mut self, k: usize, message: PoolMessage, pool: &mut Pool)
        requires { Covers pool.old (refs (slice_index_or self.old.messages.items k message)) }
        ensures set { self.new ≡
            record self.old {
              messages = buffer (slice_set self.old.messages.items k message) self.old.messages.capacity;
            } }
        ensures returned { Returned pool.old pool.new (refs (slice_index_or self.old.messages.items k message)) }
    {
        let mut message = message;
        self.replace_from(k, &mut message, pool);
        message.close();
    }

    /// Moves a message into the place of message number `k` of the scope, whose reference goes back; where there is
    /// none, the new message's reference goes back. `message` stays where it lies, without headers and bytes.
    pub fn replace_from(&mut self, k: usize, message: &mut PoolMessage, pool: &mut Pool)
        requires { Covers pool.old (refs (slice_index_or self.old.messages.items k message.old)) }
        ensures set { self.new ≡
            record self.old {
              messages = buffer (slice_set self.old.messages.items k message.old)
                  self.old.messages.capacity;
            } }
        ensures left { message.new ≡ bodiless [] }
        ensures returned { Returned pool.old pool.new (refs (slice_index_or self.old.messages.items k message.old)) }
    {
        match self.front {
            Front::Bound => {
                if k > 0 {
                    self.messages.replace_from(k - 1, message, pool);
                } else {
                    refill(self.events.first_mut(), message, pool);
                }
            }
            Front::Gone | Front::Arrived => self.messages.replace_from(k, message, pool),
        }
    }

    /// Lets the messages of the scope go, and gives their references back.
    #[inline(always)]
    pub fn clear_messages(&mut self, pool: &mut Pool)
        requires { Covers pool.old (pile_refs self.old.messages.items) }
        ensures empty { self.new ≡ record self.old { messages = buffer [] self.old.messages.capacity } }
        ensures returned { Returned pool.old pool.new (pile_refs self.old.messages.items) }
    {
        self.messages.clear(pool);
        match self.front {
            Front::Bound => {
                self.events.first_mut().1.message.let_go(pool);
                self.front = Front::Arrived;
            }
            Front::Gone | Front::Arrived => {}
        }
    }

    /// How many events were sent.
    pub fn len(&self) -> usize
        ensures { result ≡ length self.now.sent.items }
    {
        match self.front {
            Front::Gone => self.events.len(),
            Front::Arrived | Front::Bound => self.events.len() - 1,
        }
    }

    /// How many events may be sent.
    pub fn places(&self) -> usize
        ensures places { result ≡ self.now.sent.capacity }
        ensures few { result < most_sent }
    {
        self.events.places() - 1
    }

    /// Sends an event with this envelope and without a message.
    pub fn send_bare(&mut self, direction: Dir, envelope: Envelope)
        requires { length self.old.sent.items < self.old.sent.capacity }
        ensures { self.new ≡ also_sent direction envelope None self.old }
    {
        self.events.push_bare(direction, envelope);
    }

    /// Sends an event with this envelope and with what lies in a place. The place is empty then.
    pub fn send_from(&mut self, direction: Dir, envelope: Envelope, message: &mut MessagePlace)
        requires { length self.old.sent.items < self.old.sent.capacity }
        ensures sent { self.new ≡ also_sent direction envelope message.old self.old }
        ensures left { message.new ≡ None }
    {
        self.events.push_from(direction, envelope, message);
    }

    /// Sends an event with this envelope and with the last of some messages, if there is one. That message is taken
    /// out.
    pub fn send_last(&mut self, direction: Dir, envelope: Envelope, messages: &mut Messages)
        requires { length self.old.sent.items < self.old.sent.capacity }
        ensures sent { self.new ≡ also_sent direction envelope (last_item messages.old.items) self.old }
        ensures rest { messages.new ≡ buffer (without_last messages.old.items) messages.old.capacity }
    {
        self.events.push_last(direction, envelope, messages);
    }

    /// Sends an event with this envelope and with the message that arrived, if there is one that isn't bound.
    pub fn send_arrived(&mut self, direction: Dir, envelope: Envelope)
        requires { length self.old.sent.items < self.old.sent.capacity }
        ensures { self.new ≡ record (also_sent direction envelope self.old.arrived self.old) { arrived = None } }
    {
        match self.front {
            Front::Arrived => {
                send_first(&mut self.events, direction, envelope);
                self.front = Front::Gone;
            }
            Front::Gone | Front::Bound => self.events.push_bare(direction, envelope),
        }
    }

    /// Sends an event with message number `k` of the scope once more; going down, the message gets a header first. The
    /// two share the message's bytes, to which there is one more reference.
    pub fn send_message(&mut self, sending: &Sending, k: usize, pool: &mut Pool)
        requires places { length self.old.sent.items < self.old.sent.capacity }
        requires some { k < length self.old.messages.items }
        requires room { CanPass sending.now.direction (Some (message_at k self.old)) }
        requires there { Covers pool.old (refs (message_at k self.old)) }
        requires keeps { CanKeep pool.old (refs (message_at k self.old)) }
        ensures sent { self.new ≡ also_sent sending.now.direction sending.now.envelope
            (Some (sent_after sending.now.direction sending.now.header (message_at k self.old))) self.old }
        ensures kept { Kept pool.old pool.new (refs (message_at k self.old)) }
    {
        let place = match self.front {
            Front::Bound => {
                if k == 0 {
                    send_first_again(&mut self.events, &mut self.messages, sending, pool);
                    return;
                }
                k - 1
            }
            Front::Gone | Front::Arrived => k,
        };
        send_listed(&mut self.events, &self.messages, sending, place, pool);
    }

    /// Sends an event with message number `k` of the scope, which isn't wanted any more: the other messages go, and one
    /// that is bound goes on from where it lies. Going down, the message gets a header first.
    #[tactic(auto, using(crate::proofs::Piles::covers_at))]
    pub fn send_and_clear(&mut self, sending: &Sending, k: usize, pool: &mut Pool)
        requires places { length self.old.sent.items < self.old.sent.capacity }
        requires some { k < length self.old.messages.items }
        requires room { CanPass sending.now.direction (Some (message_at k self.old)) }
        requires there { Covers pool.old (pile_refs self.old.messages.items) }
        requires keeps { CanKeep pool.old (refs (message_at k self.old)) }
        ensures sent { self.new ≡
            record (also_sent sending.now.direction sending.now.envelope
            (Some (sent_after sending.now.direction sending.now.header (message_at k self.old))) self.old)
            { messages = buffer [] self.old.messages.capacity } }
        ensures returned { Returned pool.old pool.new (pile_refs (slice_set self.old.messages.items k (bodiless []))) }
    {
        match self.front {
            Front::Bound => {
                if k == 0 {
                    self.messages.clear(pool);
                    send_first_after(&mut self.events, sending);
                    self.front = Front::Gone;
                    return;
                }
            }
            Front::Gone | Front::Arrived => {}
        }
        self.send_message(sending, k, pool);
        self.clear_messages(pool);
    }

    /// Ends an empty tray.
    pub fn close(self)
        requires { (self.arrived ≡ None) × (self.messages.items ≡ []) × (self.sent.items ≡ []) }
    {
        let Tray {
            front,
            mut events,
            messages,
        } = self;
        settle(front, &mut events);
        events.close();
        messages.close();
    }
}

/// An event whose message has gone leaves the others.
fn settle(front: Front, events: &mut Events)
    requires stands { StandsSo front events.old.items }
    requires idle { (arrived_at front events.old.items ≡ None) × (bound_at front events.old.items ≡ []) }
    ensures { events.new ≡ buffer (sent_at front events.old.items) events.old.capacity }
{
    match front {
        Front::Gone => {}
        Front::Arrived | Front::Bound => events.end_first(),
    }
}

/// The direction and the envelope of the first event.
fn way_of(events: &Events) -> (Dir, Envelope)
    requires { 0 < length events.now.items }
    ensures { result ≡ ((first_sent events.now.items).0, envelope_of (first_sent events.now.items).1) }
{
    let sent = events.front();
    (sent.0, sent.1.envelope())
}

/// The first event goes on as the last, in this direction, with this envelope and with its message.
fn send_first(events: &mut Events, direction: Dir, envelope: Envelope)
    requires { 0 < length events.old.items }
    ensures { events.new ≡
        buffer (drop 1 events.old.items ++ (direction, pool_event envelope (first_message events.old.items)) ∷ [])
        events.old.capacity }
{
    begin_event(events.first_mut(), direction, envelope);
    events.go_round();
}

/// The first event goes on as the last, in this direction, with this envelope and with its message, which going down
/// gets a header first, if there is one.
fn send_first_after(events: &mut Events, sending: &Sending)
    requires some { 0 < length events.old.items }
    requires room { CanPass sending.now.direction (first_message events.old.items) }
    ensures { events.new ≡ buffer
        (drop 1 events.old.items ++ (
          sending.now.direction,
          pool_event sending.now.envelope (option_map (sent_after sending.now.direction sending.now.header)
              (first_message events.old.items)),
        ) ∷ []) events.old.capacity }
{
    begin_after(events.first_mut(), sending);
    events.go_round();
}

/// An event becomes what is sent; going down, its message, if it has one, gets a header first.
fn begin_after(sent: &mut (Dir, PoolEvent), sending: &Sending)
    requires { CanPass sending.now.direction sent.old.1.message }
    ensures { sent.new ≡ (
      sending.now.direction,
      pool_event sending.now.envelope
          (option_map (sent_after sending.now.direction sending.now.header) sent.old.1.message),
    ) }
{
    begin_event(sent, sending.direction, sending.envelope);
    match sending.direction {
        Dir::Up => {}
        Dir::Down => sent.1.message.push_header(sending.header),
    }
}

/// Sends the message of the first event, which has one, once more; going down, it gets a header first. Meanwhile it
/// lies in a spare place.
#[tactic(auto, using(crate::proofs::Piles::last_more, crate::proofs::Piles::rest_more))]
fn send_first_again(events: &mut Events, spare: &mut Messages, sending: &Sending, pool: &mut Pool)
    requires places { length events.old.items < events.old.capacity }
    requires spare { length spare.old.items < spare.old.capacity }
    requires bound { is_some (first_message events.old.items) ≡ true }
    requires room { CanPass sending.now.direction (first_message events.old.items) }
    requires there { Covers pool.old (refs_if (first_message events.old.items)) }
    requires keeps { CanKeep pool.old (refs_if (first_message events.old.items)) }
    ensures sent { events.new ≡ buffer
        (events.old.items ++ (
          sending.now.direction,
          pool_event sending.now.envelope (option_map (sent_after sending.now.direction sending.now.header)
              (first_message events.old.items)),
        ) ∷ []) events.old.capacity }
    ensures same { spare.new ≡ spare.old }
    ensures kept { Kept pool.old pool.new (refs_if (first_message events.old.items)) }
{
    let Some(message) = message_of(events) else {
        unreachable!();
    };
    keep_after(spare, sending, message, pool);
    events.push_last(sending.direction, sending.envelope, spare);
}

/// Puts a message once more after others; going down, it gets a header first.
#[tactic(auto, using(crate::proofs::Piles::changed_more))]
fn keep_after(others: &mut Messages, sending: &Sending, message: &PoolMessage, pool: &mut Pool)
    requires places { length others.old.items < others.old.capacity }
    requires room { CanPass sending.now.direction (Some message.now) }
    requires there { Covers pool.old (refs message.now) }
    requires keeps { CanKeep pool.old (refs message.now) }
    ensures pushed { others.new ≡
        buffer (others.old.items ++ sent_after sending.now.direction sending.now.header message.now ∷ [])
        others.old.capacity }
    ensures kept { Kept pool.old pool.new (refs message.now) }
{
    others.push_kept(message, pool);
    match sending.direction {
        Dir::Up => {}
        Dir::Down => others.push_header_on_last(sending.header),
    }
}

/// The message of the first event, if it has one. There is such an event.
fn message_of(events: &Events) -> Option<&PoolMessage>
    requires { 0 < length events.now.items }
    ensures { option_copied result ≡ first_message events.now.items }
{
    events.front().1.message.get()
}

/// Sends message number `k` of a list once more; going down, it gets a header first. There is such a message.
fn send_listed(
    events: &mut Events,
    messages: &Messages,
    sending: &Sending,
    k: usize,
    pool: &mut Pool,
)
    requires places { length events.old.items < events.old.capacity }
    requires some { k < length messages.now.items }
    requires room { CanPass sending.now.direction (Some (message_in k messages.now.items)) }
    requires there { Covers pool.old (refs (message_in k messages.now.items)) }
    requires keeps { CanKeep pool.old (refs (message_in k messages.now.items)) }
    ensures sent { events.new ≡ buffer
        (events.old.items ++ (
          sending.now.direction,
          pool_event sending.now.envelope
              (Some (sent_after sending.now.direction sending.now.header (message_in k messages.now.items))),
        ) ∷ []) events.old.capacity }
    ensures kept { Kept pool.old pool.new (refs (message_in k messages.now.items)) }
{
    match messages.get(k) {
        Some(message) => {
            events.push_kept(sending, message, pool);
        }
        None => unreachable!(),
    }
}

/// Puts a message in the place of an event's own, whose reference goes back; `message` is left without headers and
/// bytes.
fn refill(sent: &mut (Dir, PoolEvent), message: &mut PoolMessage, pool: &mut Pool)
    requires { Covers pool.old (refs_if sent.old.1.message) }
    ensures filled { sent.new ≡ (sent.old.0, record sent.old.1 { message = Some message.old }) }
    ensures left { message.new ≡ bodiless [] }
    ensures returned { Returned pool.old pool.new (refs_if sent.old.1.message) }
{
    let place = &mut sent.1.message;
    place.let_go(pool);
    place.fill(message);
}

//! Events that were sent.

ghost use Rattle.std.specs.Prelude.{◌≡◌, ◌<◌, ◌≤◌, [], ◌∷◌, ◌++◌, length, drop, slice_get, Some, None, option_map};
ghost use Rattle.std.specs.Prelude.{IfOk};
ghost use Rattle.circular_buffer.specs.Buffer.{buffer, last_item};
ghost use Rattle.slot_pool.specs.References.{Covers};
ghost use Rattle.msg_core.specs.Parts.{longest_body};
ghost use Rattle.pool_message.specs.Moves.{CanKeep, Kept, Returned};
ghost use Rattle.pool_message.specs.Piled.{without_last};
ghost use Rattle.pool_message.specs.Put.{Puts};
ghost use Rattle.pool_message.specs.Seen.{refs, event_refs};
ghost use Rattle.pool_message.specs.Sent.{sent_refs, most_sent, first_sent, sent_after, without_message};
ghost use Rattle.pool_message.specs.Sent.{message_passed};
ghost use Rattle.pool_message.specs.Sent.{pool_event, CanPass};

use crate::event::PoolEvent;
use crate::list::List;
use crate::message::PoolMessage;
use crate::message_place::MessagePlace;
use crate::messages::Messages;
use crate::part::Part;
use layer_desk::Sending;
use layer_mean::Envelope;
use layer_words::Dir;
use msg_core::{Fields, Header, Headers};
use slot_pool::Pool;
use std::alloc::{AllocError, Global};
use std::marker::Model;

/// The most places for events.
pub const MOST_SENT: usize = 1_048_576;

/// The events that were sent, in order, each with its direction. The number of places for them, at most `MOST_SENT`, is
/// chosen once. Two lists are swapped by their pointers. A list can't be let go: it is emptied, and then closed.
pub struct Events {
    list: Box<List>,
}

impl Model for Events {
    ghost use Rattle.circular_buffer.specs.Buffer.{Buffer};
    ghost use Rattle.layer_words.specs.declared.events.Dir.{Dir};
    ghost use Rattle.pool_message.specs.declared.event.PoolEvent.{PoolEvent};

    ghost Value = { Buffer (Dir × PoolEvent) };

    ghost view = { λ e. e.list.value };
}

impl Events {
    ghost use Rattle.std.specs.Borrow.{sem};
    ghost use Rattle.pool_message.specs.Lends.{lends_first};

    /// Room for `places` events.
    pub fn with_places(alloc: Global, places: usize) -> Result<Events, AllocError>
        requires { places ≤ most_sent }
        ensures { IfOk result (λ e. e ≡ buffer [] places) }
    {
        let list = List::with_places(alloc, places)?;
        match Box::new(alloc, list) {
            Ok(list) => Ok(Events { list }),
            Err(error) => {
                error.value.close();
                Err(AllocError)
            }
        }
    }

    /// How many there are.
    pub fn len(&self) -> usize
        ensures count { result ≡ length self.now.items }
        ensures within { result ≤ self.now.capacity }
    {
        self.list.len()
    }

    /// How many there may be.
    pub fn places(&self) -> usize
        ensures places { result ≡ self.now.capacity }
        ensures few { result ≤ most_sent }
    {
        self.list.places()
    }

    /// The first one, if there is one.
    pub fn first(&self) -> Option<(Dir, &PoolEvent)>
        ensures { option_map (λ e. (e.0, e.1.now)) result ≡ slice_get self.now.items 0 }
    {
        self.list.first()
    }

    /// The first event. There is one.
    pub fn front(&self) -> &(Dir, PoolEvent)
        requires { 0 < length self.now.items }
        ensures { result.now ≡ first_sent self.now.items }
    {
        self.list.front()
    }

    /// The first one, to be changed where it lies.
    pub fn first_mut(&mut self) -> &mut (Dir, PoolEvent)
        requires { 0 < length self.old.items }
        ensures* writes_back { sem 𝓛 (lends_first self.entry result) }
        ensures value { result.now ≡ first_sent self.old.items }
    {
        self.list.first_mut()
    }

    /// The first one becomes the last.
    pub fn go_round(&mut self)
        requires { 0 < length self.old.items }
        ensures { self.new ≡ buffer (drop 1 self.old.items ++ first_sent self.old.items ∷ []) self.old.capacity }
    {
        self.list.go_round();
    }

    /// Puts an event with this envelope and with what lies in a place, after the others. The place is empty then.
    #[tactic(auto, using(crate::proofs::Slots::last_pushed, crate::proofs::Slots::rest_pushed))]
    #[inline(always)]
    pub fn push_from(&mut self, direction: Dir, envelope: Envelope, message: &mut MessagePlace)
        requires { length self.old.items < self.old.capacity }
        ensures pushed { self.new ≡ buffer (self.old.items ++ (direction, pool_event envelope message.old) ∷ [])
            self.old.capacity }
        ensures left { message.new ≡ None }
    {
        self.list.push_bare(direction, envelope);
        fill_from(self.list.last_mut(), message);
    }

    /// Puts an event with this envelope and without a message, after the others.
    pub fn push_bare(&mut self, direction: Dir, envelope: Envelope)
        requires { length self.old.items < self.old.capacity }
        ensures { self.new ≡ buffer (self.old.items ++ (direction, pool_event envelope None) ∷ []) self.old.capacity }
    {
        self.list.push_bare(direction, envelope);
    }

    /// Puts an event with this envelope and with the last of some messages, if there is one, after the others. That
    /// message is taken out.
    #[tactic(auto, using(crate::proofs::Slots::last_pushed, crate::proofs::Slots::rest_pushed))]
    #[inline(always)]
    pub fn push_last(&mut self, direction: Dir, envelope: Envelope, messages: &mut Messages)
        requires { length self.old.items < self.old.capacity }
        ensures pushed { self.new ≡
            buffer (self.old.items ++ (direction, pool_event envelope (last_item messages.old.items)) ∷ [])
            self.old.capacity }
        ensures rest { messages.new ≡ buffer (without_last messages.old.items) messages.old.capacity }
    {
        self.list.push_bare(direction, envelope);
        fill_last(self.list.last_mut(), messages);
    }

    /// Puts an event with this envelope and with a message of these headers and a copy of these bytes, after the
    /// others: the bytes in a slot that was unused, and the headers where the event stands. False where the pool is
    /// full, and then nothing has changed.
    #[inline(always)]
    pub fn push_put(
        &mut self,
        direction: Dir,
        envelope: Envelope,
        headers: &Headers,
        bytes: &[u8],
        pool: &mut Pool,
    ) -> bool
        requires room { length self.old.items < self.old.capacity }
        requires fits { length bytes.now ≤ longest_body }
        ensures { Puts pool.old self.old direction envelope (record { headers = headers.now; body = bytes.now })
            pool.new self.new result }
    {
        let Some(slot) = pool.put(bytes) else {
            return false
        };
        let part = Part {
            slot,
            from: 0,
            len: bytes.len() as u32,
        };
        self.push_made(direction, envelope, headers, part);
        true
    }

    /// Puts an event with this envelope and with a message of these headers before this body, after the others.
    #[tactic(auto, using(crate::proofs::Slots::last_pushed, crate::proofs::Slots::rest_pushed))]
    #[inline(always)]
    fn push_made(&mut self, direction: Dir, envelope: Envelope, headers: &Headers, body: Part)
        requires { length self.old.items < self.old.capacity }
        ensures { self.new ≡ buffer
            (self.old.items ++ (
              direction,
              pool_event envelope (Some (record { headers = headers.now; body = Some body })),
            ) ∷ []) self.old.capacity }
    {
        self.list.push_bare(direction, envelope);
        fill_made(self.list.last_mut(), headers, body);
    }

    /// Puts what is sent, with this message once more, after the others; going down, the message gets a header first.
    /// The two share the message's bytes, to which there is one more reference.
    #[tactic(auto, using(crate::proofs::Slots::last_pushed, crate::proofs::Slots::rest_pushed))]
    pub fn push_kept(&mut self, sending: &Sending, message: &PoolMessage, pool: &mut Pool)
        requires places { length self.old.items < self.old.capacity }
        requires room { CanPass sending.now.direction (Some message.now) }
        requires there { Covers pool.old (refs message.now) }
        requires keeps { CanKeep pool.old (refs message.now) }
        ensures pushed { self.new ≡ buffer
            (self.old.items ++ (
              sending.now.direction,
              pool_event sending.now.envelope
                  (Some (sent_after sending.now.direction sending.now.header message.now)),
            ) ∷ []) self.old.capacity }
        ensures kept { Kept pool.old pool.new (refs message.now) }
    {
        self.list.push_bare(sending.direction, sending.envelope);
        fill_kept(self.list.last_mut(), sending, message, pool);
    }

    /// The first one becomes the last of others.
    pub fn move_first(&mut self, to: &mut Events)
        requires some { 0 < length self.old.items }
        requires room { length to.old.items < to.old.capacity }
        ensures rest { self.new ≡ buffer (drop 1 self.old.items) self.old.capacity }
        ensures moved { to.new ≡ buffer (to.old.items ++ first_sent self.old.items ∷ []) to.old.capacity }
    {
        move_event(self.list.first_mut(), to);
        self.list.end_first();
    }

    /// Removes the first event, and gives its message's reference back.
    pub fn drop_first(&mut self, pool: &mut Pool)
        requires some { 0 < length self.old.items }
        requires there { Covers pool.old (event_refs (first_sent self.old.items).1) }
        ensures rest { self.new ≡ buffer (drop 1 self.old.items) self.old.capacity }
        ensures returned { Returned pool.old pool.new (event_refs (first_sent self.old.items).1) }
    {
        drop_message(self.list.first_mut(), pool);
        self.list.end_first();
    }

    /// Removes the first event, which has no message.
    pub(crate) fn end_first(&mut self)
        requires some { 0 < length self.old.items }
        requires bare { (first_sent self.old.items).1.message ≡ None }
        ensures { self.new ≡ buffer (drop 1 self.old.items) self.old.capacity }
    {
        self.list.end_first();
    }

    /// The direction of event number `k`. There is such an event.
    pub fn direction(&self, k: usize) -> Dir
        requires { k < length self.now.items }
        ensures { option_map (λ e. e.0) (slice_get self.now.items k) ≡ Some result }
    {
        self.list.direction(k)
    }

    /// Lets all go, and gives the references of their messages back.
    pub fn clear(&mut self, pool: &mut Pool)
        requires { Covers pool.old (sent_refs self.old.items) }
        ensures empty { self.new ≡ buffer [] self.old.capacity }
        ensures returned { Returned pool.old pool.new (sent_refs self.old.items) }
    {
        while self.len() > 0 {
            self.drop_first(pool);
        }
    }

    /// Ends a list without events.
    pub fn close(self)
        requires { self.items ≡ [] }
    {
        let Events { list } = self;
        Box::into_inner(list).close();
    }
}

/// A message passes a layer, if there is one: going down it gets this header in front, and going up it loses its first
/// one.
pub fn pass_message(direction: Dir, header: Header, message: &mut MessagePlace)
    requires { CanPass direction message.old }
    ensures { message.new ≡ option_map (message_passed direction header) message.old }
{
    match direction {
        Dir::Up => {
            let _tag = message.pop_header(&mut Fields::new());
        }
        Dir::Down => message.push_header(header),
    }
}

/// An event without a message takes what lies in a place.
fn fill_from(sent: &mut (Dir, PoolEvent), message: &mut MessagePlace)
    requires { sent.old.1.message ≡ None }
    ensures filled { sent.new ≡ (sent.old.0, record sent.old.1 { message = message.old }) }
    ensures left { message.new ≡ None }
{
    sent.1.message.take_over(message);
}

/// An event without a message gets one of these headers before this body.
fn fill_made(sent: &mut (Dir, PoolEvent), headers: &Headers, body: Part)
    requires { sent.old.1.message ≡ None }
    ensures { sent.new ≡ (
      sent.old.0,
      record sent.old.1 { message = Some (record { headers = headers.now; body = Some body }) },
    ) }
{
    sent.1.message.make(headers, body);
}

/// An event without a message takes the last of some, if there is one.
fn fill_last(sent: &mut (Dir, PoolEvent), messages: &mut Messages)
    requires { sent.old.1.message ≡ None }
    ensures filled { sent.new ≡ (sent.old.0, record sent.old.1 { message = last_item messages.old.items }) }
    ensures rest { messages.new ≡ buffer (without_last messages.old.items) messages.old.capacity }
{
    messages.pop_to(&mut sent.1.message);
}

/// An event without a message gets this message once more; going down, the message gets a header first.
fn fill_kept(sent: &mut (Dir, PoolEvent), sending: &Sending, message: &PoolMessage, pool: &mut Pool)
    requires bare { sent.old.1.message ≡ None }
    requires room { CanPass sending.now.direction (Some message.now) }
    requires there { Covers pool.old (refs message.now) }
    requires keeps { CanKeep pool.old (refs message.now) }
    ensures filled { sent.new ≡ (
      sent.old.0,
      record sent.old.1
          { message = Some (sent_after sending.now.direction sending.now.header message.now) },
    ) }
    ensures kept { Kept pool.old pool.new (refs message.now) }
{
    let place = &mut sent.1.message;
    place.keep_from(message, pool);
    match sending.direction {
        Dir::Up => {}
        Dir::Down => place.push_header(sending.header),
    }
}

/// An event goes to others, and leaves its slot without a message.
fn move_event(sent: &mut (Dir, PoolEvent), to: &mut Events)
    requires { length to.old.items < to.old.capacity }
    ensures moved { to.new ≡ buffer (to.old.items ++ sent.old ∷ []) to.old.capacity }
    ensures left { sent.new ≡ without_message sent.old }
{
    let direction = sent.0;
    let event = &mut sent.1;
    to.push_from(direction, event.envelope(), &mut event.message);
}

/// An event lets its message go, whose reference goes back.
fn drop_message(sent: &mut (Dir, PoolEvent), pool: &mut Pool)
    requires { Covers pool.old (event_refs sent.old.1) }
    ensures left { sent.new ≡ without_message sent.old }
    ensures returned { Returned pool.old pool.new (event_refs sent.old.1) }
{
    sent.1.message.let_go(pool);
}

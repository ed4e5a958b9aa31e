//! The list of events that were sent, as it lies in its box.

ghost use Rattle.std.specs.Prelude.{◌≡◌, ◌<◌, ◌≤◌, [], ◌∷◌, ◌++◌, length, drop, slice_get, Some, None, option_map};
ghost use Rattle.std.specs.Prelude.{IfOk};
ghost use Rattle.circular_buffer.specs.Buffer.{buffer, last_item};
ghost use Rattle.pool_message.specs.Sent.{most_sent, first_sent, pool_event};
ghost use Rattle.pool_message.specs.Slots.{first_number};

use crate::event::PoolEvent;
use crate::message_place::MessagePlace;
use crate::short_queue::ShortQueue;
use layer_mean::Envelope;
use layer_words::Dir;
use std::alloc::{AllocError, Global};
use std::marker::Model;

/// The events that were sent, in order, each with its direction. The number of places for them, at most `MOST_SENT`, is
/// chosen once. An event stays in its slot while the order moves on, and the slot is used again once the event is gone,
/// so few slots are ever touched. A list can't be let go: it is emptied, and then closed.
pub(crate) struct List {
    slots: Vec<(Dir, PoolEvent)>,
    /// The numbers of the slots in which events stand.
    order: ShortQueue<u32>,
    /// The numbers of the others.
    free: Vec<u32>,
    /// The number of the slot of the first event, if there is one: it is looked up far more often than it changes.
    first: u32,
}

impl Model for List {
    ghost use Rattle.std.specs.Prelude.{◌≤◌, length, vec_capacity};
    ghost use Rattle.circular_buffer.specs.Buffer.{Buffer, buffer};
    ghost use Rattle.layer_words.specs.declared.events.Dir.{Dir};
    ghost use Rattle.pool_message.specs.Sent.{most_sent};
    ghost use Rattle.pool_message.specs.Slots.{standing, AreParted, IsFirst};
    ghost use Rattle.pool_message.specs.declared.event.PoolEvent.{PoolEvent};

    ghost Value = { Buffer (Dir × PoolEvent) };

    ghost view = { λ e. buffer (standing e.slots.items e.order.items) e.order.capacity };

    ghost invariant = { λ e. AreParted e.slots.items e.order.items e.free.items × (e.order.capacity ≤ most_sent)
        × (e.order.capacity ≤ vec_capacity e.slots) × (e.order.capacity ≤ vec_capacity e.free) ×
        (length e.slots.items ≤ e.order.capacity) × IsFirst e.first e.order.items };
}

impl List {
    ghost use Rattle.std.specs.Borrow.{sem};
    ghost use Rattle.pool_message.specs.Lends.{lends_listed, lends_last, last_sent};

    /// Room for `places` events.
    pub fn with_places(alloc: Global, places: usize) -> Result<List, AllocError>
        requires { places ≤ most_sent }
        ensures { IfOk result (λ e. e ≡ buffer [] places) }
    {
        let order = ShortQueue::with_capacity(alloc, places, 0)?;
        let free = Vec::with_capacity(alloc, places)?;
        let slots = Vec::with_capacity(alloc, places)?;
        Ok(List {
            slots,
            order,
            free,
            first: 0,
        })
    }

    /// How many there are.
    pub fn len(&self) -> usize
        ensures count { result ≡ length self.now.items }
        ensures within { result ≤ self.now.capacity }
    {
        self.order.len()
    }

    /// How many there may be.
    pub fn places(&self) -> usize
        ensures places { result ≡ self.now.capacity }
        ensures few { result ≤ most_sent }
    {
        self.order.capacity()
    }

    /// The first one, if there is one.
    pub fn first(&self) -> Option<(Dir, &PoolEvent)>
        ensures { option_map (λ e. (e.0, e.1.now)) result ≡ slice_get self.now.items 0 }
    {
        if self.order.is_empty() {
            return None;
        }
        let sent = &self.slots[self.first as usize];
        Some((sent.0, &sent.1))
    }

    /// The first event. There is one.
    pub fn front(&self) -> &(Dir, PoolEvent)
        requires { 0 < length self.now.items }
        ensures { result.now ≡ first_sent self.now.items }
    {
        &self.slots[self.first as usize]
    }

    /// The first one, to be changed where it lies.
    pub fn first_mut(&mut self) -> &mut (Dir, PoolEvent)
        requires { 0 < length self.old.items }
        ensures* writes_back { sem 𝓛 (lends_listed self.entry result) }
        ensures value { result.now ≡ first_sent self.old.items }
    {
        &mut self.slots[self.first as usize]
    }

    /// The first one becomes the last.
    pub fn go_round(&mut self)
        requires { 0 < length self.old.items }
        ensures { self.new ≡ buffer (drop 1 self.old.items ++ first_sent self.old.items ∷ []) self.old.capacity }
    {
        self.order.go_round(self.first);
        self.first = first_of(&self.order);
    }

    /// Puts an event with this envelope and without a message, after the others.
    pub fn push_bare(&mut self, direction: Dir, envelope: Envelope)
        requires { length self.old.items < self.old.capacity }
        ensures { self.new ≡ buffer (self.old.items ++ (direction, pool_event envelope None) ∷ []) self.old.capacity }
    {
        let k = match self.free.pop() {
            Some(k) => {
                begin_event(&mut self.slots[k as usize], direction, envelope);
                k
            }
            None => {
                let k = self.slots.len() as u32;
                let message = MessagePlace::new();
                let event = PoolEvent::of(envelope, message);
                self.slots.push_reserved((direction, event));
                k
            }
        };
        if self.order.is_empty() {
            self.first = k;
        }
        match self.order.try_push_back(k) {
            Ok(()) => {}
            Err(_k) => unreachable!(),
        }
    }

    /// The last one, to be changed where it lies.
    #[inline(always)]
    pub fn last_mut(&mut self) -> &mut (Dir, PoolEvent)
        requires { 0 < length self.old.items }
        ensures* writes_back { sem 𝓛 (lends_last self.entry result) }
        ensures value { result.now ≡ last_sent self.old.items }
    {
        let k = last_of(&self.order);
        &mut self.slots[k as usize]
    }

    /// Removes the first event, which has no message.
    pub fn end_first(&mut self)
        requires some { 0 < length self.old.items }
        requires bare { (first_sent self.old.items).1.message ≡ None }
        ensures { self.new ≡ buffer (drop 1 self.old.items) self.old.capacity }
    {
        let Some(k) = self.order.pop_front() else {
            unreachable!();
        };
        self.free.push_reserved(k);
        self.first = first_of(&self.order);
    }

    /// The direction of event number `k`. There is such an event.
    pub fn direction(&self, k: usize) -> Dir
        requires { k < length self.now.items }
        ensures { option_map (λ e. e.0) (slice_get self.now.items k) ≡ Some result }
    {
        match self.order.get(k) {
            Some(slot) => self.slots[*slot as usize].0,
            None => unreachable!(),
        }
    }

    /// Ends a list without events.
    pub fn close(self)
        requires { self.items ≡ [] }
    {
        let List {
            mut slots,
            order,
            free: _,
            first: _,
        } = self;
        while let Some((_direction, event)) = slots.pop() {
            event.close();
        }
        slots.destroy_empty();
        order.destroy_empty();
    }
}

/// The first number of some; 0 where there is none.
fn first_of(order: &ShortQueue<u32>) -> u32
    ensures { result ≡ first_number order.now.items }
{
    match order.front() {
        Some(k) => *k,
        None => 0,
    }
}

/// The last number of some.
fn last_of(order: &ShortQueue<u32>) -> u32
    requires { 0 < length order.now.items }
    ensures { last_item order.now.items ≡ Some result }
{
    match order.back() {
        Some(k) => *k,
        None => unreachable!(),
    }
}

/// An event gets this direction and this envelope, and keeps its message, if it has one.
pub(crate) fn begin_event(sent: &mut (Dir, PoolEvent), direction: Dir, envelope: Envelope)
    ensures { sent.new ≡ (direction, pool_event envelope sent.old.1.message) }
{
    sent.0 = direction;
    sent.1.become_of(envelope);
}

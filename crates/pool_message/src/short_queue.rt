//! Rings of which the first item stands by itself.

ghost use Rattle.std.specs.Prelude.{◌≡◌, ◌==◌, ◌<◌, ◌≤◌, [], ◌∷◌, ◌++◌, length, drop, slice_get, option_copied, IfOk};
ghost use Rattle.std.specs.Prelude.{IfErr, OnOk, IsOk, ◌↔◌};
ghost use Rattle.circular_buffer.specs.Buffer.{buffer, last_item};

use circular_buffer::HeapCircularBuffer;
use std::alloc::{AllocError, Global};
use std::marker::Model;

/// Items in order, of which there is a most. The first stands by itself, and those after it in a ring: mostly there is
/// no other, and it is looked up and changed far more often than one comes after it.
#[derive(Drop)]
pub struct ShortQueue<T> {
    count: usize,
    /// The first, if there is one.
    first: T,
    others: HeapCircularBuffer<T>,
}

impl<T> Model for ShortQueue<T> {
    ghost use Rattle.std.specs.Prelude.{◌≡◌, ◌-◌, ◌≤◌, length};
    ghost use Rattle.circular_buffer.specs.Buffer.{Buffer, buffer, buffer_code};
    ghost use Rattle.pool_message.specs.Lines.{in_line};

    ghost Value = { Buffer T };

    ghost coded = { buffer_code T.code };

    ghost view = { λ l. buffer (in_line l.count l.first l.others.items) l.others.capacity };

    ghost invariant = { λ l. (length l.others.items ≡ l.count - 1) × (l.count ≤ l.others.capacity) };
}

impl<T: Copy> ShortQueue<T> {
    /// No item, with room for `capacity`. Where no item is, `none` stands for the first.
    pub fn with_capacity(
        alloc: Global,
        capacity: usize,
        none: T,
    ) -> Result<ShortQueue<T>, AllocError>
        ensures { IfOk result (λ l. l ≡ buffer [] capacity) }
    {
        let others = HeapCircularBuffer::with_capacity(alloc, capacity)?;
        Ok(ShortQueue {
            count: 0,
            first: none,
            others,
        })
    }

    /// How many there are.
    pub fn len(&self) -> usize
        ensures len { result ≡ length self.now.items }
        ensures within { result ≤ self.now.capacity }
    {
        self.count
    }

    /// How many there may be.
    pub fn capacity(&self) -> usize
        ensures { result ≡ self.now.capacity }
    {
        self.others.capacity()
    }

    /// Whether there is none.
    pub fn is_empty(&self) -> bool
        ensures { result ≡ (length self.now.items == 0) }
    {
        self.count == 0
    }

    /// The first, if there is one.
    pub fn front(&self) -> Option<&T>
        ensures { option_copied result ≡ slice_get self.now.items 0 }
    {
        if self.count == 0 {
            return None;
        }
        Some(&self.first)
    }

    /// The last, if there is one.
    pub fn back(&self) -> Option<&T>
        ensures { option_copied result ≡ last_item self.now.items }
    {
        if self.count < 2 {
            return self.front();
        }
        self.others.back()
    }

    /// Number `index`, if there is one.
    pub fn get(&self, index: usize) -> Option<&T>
        ensures { option_copied result ≡ slice_get self.now.items index }
    {
        if index == 0 {
            return self.front();
        }
        self.others.get(index - 1)
    }

    /// The first becomes another one.
    pub fn set_first(&mut self, item: T)
        requires { 0 < length self.old.items }
        ensures { self.new ≡ buffer (item ∷ drop 1 self.old.items) self.old.capacity }
    {
        self.first = item;
    }

    /// Puts an item after the others, or hands it back where there is no room.
    pub fn try_push_back(&mut self, item: T) -> Result<(), T>
        ensures variant { IsOk result ↔ (length self.old.items < self.old.capacity) }
        ensures ok { OnOk result (self.new ≡ buffer (self.old.items ++ item ∷ []) self.old.capacity) }
        ensures err { IfErr result (λ x. (x ≡ item) × (self.new ≡ self.old)) }
    {
        if self.count >= self.others.capacity() {
            return Err(item);
        }
        if self.count == 0 {
            self.first = item;
            self.count = 1;
            return Ok(());
        }
        push_other(&mut self.others, item);
        self.count += 1;
        Ok(())
    }

    /// The first goes, if there is one.
    pub fn pop_front(&mut self) -> Option<T>
        ensures value { result ≡ slice_get self.old.items 0 }
        ensures items { self.new ≡ buffer (drop 1 self.old.items) self.old.capacity }
    {
        if self.count == 0 {
            return None;
        }
        let item = self.first;
        self.count -= 1;
        match self.others.pop_front() {
            Some(next) => {
                self.first = next;
                Some(item)
            }
            None => Some(item),
        }
    }

    /// The first goes, and an item becomes the last.
    pub fn go_round(&mut self, item: T)
        requires { 0 < length self.old.items }
        ensures { self.new ≡ buffer (drop 1 self.old.items ++ item ∷ []) self.old.capacity }
    {
        match self.others.pop_front() {
            Some(next) => {
                self.first = next;
                push_other(&mut self.others, item);
            }
            None => self.first = item,
        }
    }

    /// Ends a line without items.
    pub fn destroy_empty(self)
        requires { self.items ≡ [] }
    {
        let ShortQueue {
            count: _,
            first: _,
            others,
        } = self;
        others.destroy_empty();
    }
}

/// Puts an item after others, for which there is room.
fn push_other<T: Copy>(others: &mut HeapCircularBuffer<T>, item: T)
    requires { length others.old.items < others.old.capacity }
    ensures { others.new ≡ buffer (others.old.items ++ item ∷ []) others.old.capacity }
{
    match others.try_push_back(item) {
        Ok(()) => {}
        Err(_item) => unreachable!(),
    }
}

//! The pool and its references.
ghost use Rattle.std.specs.Prelude.{◌≡◌, ℕ, ◌+◌, ◌<◌, ◌≤◌, ◌↔◌, List, ◌++◌, length, take, slice_set, replicate, IfOk};
ghost use Rattle.std.specs.Prelude.{IfSome, IfNone, IsNone, IsTrue};
ghost use Rattle.slot_pool.specs.Held.{held_bytes, unused, held_at, count_at, bytes_at, one_less, range, IsFull, Puts};

use crate::row::Row;
use crate::slot_record::LONGEST;
use std::alloc::{AllocError, Global};
use std::marker::Model;

/// A reference to a body of a pool, by the number of its slot. It can't be copied or let go: it goes back to its pool.
pub struct Slot {
    index: u32,
}

impl Model for Slot {
    ghost Value = { ℕ };

    ghost view = { λ s. s.index };
}

/// Some bytes of the body in a slot: `len` of them from `from` on.
#[derive(Clone, Copy)]
pub struct SlotRange<'a> {
    pub slot: &'a Slot,
    pub from: u32,
    pub len: u32,
}

/// A number of slots, each unused or with a body of at most 8,192 bytes and the number of references to it.
/// Memory is taken for all slots at once, and a slot's memory is first touched when the slot is first used.
/// The unused places are linked through their own memory, as in a slab allocator.
#[derive(Drop)]
pub struct Pool {
    places: Row,
    first: u32,
}

impl Model for Pool {
    ghost use Rattle.std.specs.Prelude.{List};
    ghost use Rattle.slot_pool.specs.Held.{Held, held_code};

    ghost Value = { List Held };

    ghost coded = { held_code };

    ghost use Rattle.slot_pool.specs.Places.{shown_slots, IsPool};

    ghost view = { λ p. shown_slots p.places.values p.places.capacity };

    ghost invariant = { λ p. IsPool p.places.values p.places.capacity p.first };
}

impl Pool {
    /// A pool of `slots` slots, all unused.
    pub fn with_slots(alloc: Global, slots: u32) -> Result<Pool, AllocError>
        ensures { IfOk result (λ p. p ≡ replicate slots unused) }
    {
        let places = Row::of_places(alloc, slots)?;
        Ok(Pool {
            places,
            first: slots,
        })
    }

    /// A first reference to a copy of `bytes`, in a slot that was unused.
    #[inline(always)]
    pub fn put(&mut self, bytes: &[u8]) -> Option<Slot>
        requires { length bytes.now ≤ LONGEST }
        ensures full { IsNone result ↔ IsFull self.old }
        ensures none { IfNone result (self.new ≡ self.old) }
        ensures some { IfSome result (Puts self.old self.new bytes.now) }
    {
        let used = self.places.len();
        let index = self.first;
        if (index as usize) < used {
            self.first = self.places.next(index as usize);
            self.places.hold(index as usize, bytes);
            return Some(Slot { index });
        }
        if self.places.has_room() {
            self.places.push(bytes);
            return Some(Slot { index: used as u32 });
        }
        None
    }

    /// One more reference to the body that `s` refers to.
    pub fn keep(&mut self, s: &Slot) -> Slot
        requires used { 0 < count_at self.old s.now }
        requires room { count_at self.old s.now < 4294967295 }
        ensures slot { result ≡ s.now }
        ensures pool { self.new ≡
            slice_set self.old s.now (held_bytes (count_at self.old s.now + 1) (bytes_at self.old s.now)) }
    {
        let index = s.index;
        self.places.add_reference(index as usize);
        Slot { index }
    }

    /// Ends a reference. With the last one its slot is unused again, and the next `put` takes it first.
    pub fn give_back(&mut self, s: Slot)
        requires { 0 < count_at self.old s }
        ensures { self.new ≡ slice_set self.old s (one_less (held_at self.old s)) }
    {
        let Slot { index } = s;
        if self.places.end_reference(index as usize) {
            self.places.link(index as usize, self.first);
            self.first = index;
        }
    }

    /// The body that `s` refers to.
    pub fn bytes(&self, s: &Slot) -> &[u8]
        requires { 0 < count_at self.now s.now }
        ensures bytes { result.now ≡ bytes_at self.now s.now }
        ensures fits { length result.now ≤ LONGEST }
    {
        self.places.body(s.index as usize)
    }

    /// A first reference to the bytes of one range and, after them, those of another.
    pub fn join(&mut self, front: SlotRange<'_>, back: SlotRange<'_>) -> Option<Slot>
        requires front_used { 0 < count_at self.old front.slot.now }
        requires back_used { 0 < count_at self.old back.slot.now }
        requires front_range { front.from + front.len ≤ length (bytes_at self.old front.slot.now) }
        requires back_range { back.from + back.len ≤ length (bytes_at self.old back.slot.now) }
        requires fits { front.len + back.len ≤ LONGEST }
        ensures full { IsNone result ↔ IsFull self.old }
        ensures none { IfNone result (self.new ≡ self.old) }
        ensures some { IfSome result (Puts self.old self.new
            (range front.entry.from front.entry.len (bytes_at self.old front.entry.slot.now) ++
            range back.entry.from back.entry.len (bytes_at self.old back.entry.slot.now))) }
    {
        let whole = front.len as usize + back.len as usize;
        let mut body = [0; LONGEST];
        let first = part(self.bytes(front.slot), front.from, front.len);
        let second = part(self.bytes(back.slot), back.from, back.len);
        write_both(&mut body, first, second);
        self.put(&body[..whole])
    }
}

fn part(bytes: &[u8], from: u32, len: u32) -> &[u8]
    requires { from + len ≤ length bytes.now }
    ensures { result.now ≡ range from len bytes.now }
{
    let from = from as usize;
    &bytes[from..from + len as usize]
}

/// Writes `front` and, after it, `back` to the start of `body`.
fn write_both(body: &mut [u8], front: &[u8], back: &[u8])
    requires { length front.now + length back.now ≤ length body.old }
    ensures { take (length front.now + length back.now) body.new ≡ front.now ++ back.now }
{
    let whole = front.len() + back.len();
    body[..front.len()].copy_from_slice(front);
    body[front.len()..whole].copy_from_slice(back);
}

//! The queues of one cell.

ghost use Rattle.std.specs.Prelude.{◌≡◌, ◌-◌, ◌<◌, ◌≤◌, List, [], ◌∷◌, ◌++◌, map, length, take, drop, replicate};
ghost use Rattle.std.specs.Prelude.{slice_get, slice_index_or, slice_set, option_copied, option_to_list, IfOk, IfNone};
ghost use Rattle.std.specs.Prelude.{IfSome};
ghost use Rattle.std.specs.VecDeque.{deque_items};
ghost use Rattle.cell_store.specs.Kept.{rows_of};
ghost use Rattle.cell_store.specs.Rings.{CellQueues, shown_rows};

use std::alloc::{AllocError, Global};
use std::collections::VecDeque;
use std::marker::Model;

/// The queues of one cell as rings, each made with its whole capacity. There may be fewer of them than there is room
/// for; the others are empty.
pub struct Rings<R> {
    capacity: u8,
    shown: usize,
    rings: Vec<VecDeque<R>>,
}

impl<R> Model for Rings<R> {
    ghost use Rattle.std.specs.Prelude.{length};
    ghost use Rattle.cell_store.specs.Rings.{CellQueues, shown_rows, AreRings};
    ghost use Rattle.cell_store.specs.Coded.{queues_code};

    ghost Value = { CellQueues R };

    ghost coded = { queues_code R.code };

    ghost view = { λ r. record
        { capacity = r.capacity; most = length r.rings.items; rows = shown_rows r.shown r.rings.items } };

    ghost invariant = { λ r. AreRings r.capacity r.shown r.rings.items };
}

impl<R> Rings<R> {
    /// `count` empty queues of a capacity.
    pub fn with_capacity(alloc: Global, count: usize, capacity: u8) -> Result<Rings<R>, AllocError>
        ensures { IfOk result (λ r. r ≡ record { capacity = capacity; most = count; rows = replicate count [] }) }
    {
        let mut rings = Vec::with_capacity(alloc, count)?;
        for _ in 0..count {
            match VecDeque::with_capacity(alloc, usize::from(capacity)) {
                Ok(ring) => rings.push_reserved(ring),
                Err(error) => {
                    destroy_rings(rings);
                    return Err(error);
                }
            }
        }
        Ok(Rings {
            capacity,
            shown: count,
            rings,
        })
    }

    /// How many rows each queue keeps.
    pub fn capacity(&self) -> u8
        ensures { result ≡ self.now.capacity }
    {
        self.capacity
    }

    /// How many rows a queue has.
    pub fn len(&self, index: usize) -> u8
        ensures { result ≡ length (slice_index_or self.now.rows index []) }
    {
        if index < self.shown {
            self.rings[index].len() as u8
        } else {
            0
        }
    }

    /// How many queues there are.
    pub fn count(&self) -> usize
        ensures count { result ≡ length self.now.rows }
        ensures few { result ≤ self.now.most }
    {
        self.shown
    }

    /// A row of a queue, the front being 0.
    pub fn row(&self, index: usize, row: usize) -> Option<&R>
        ensures { option_copied result ≡ slice_get (slice_index_or self.now.rows index []) row }
    {
        if index < self.shown {
            self.rings[index].get(row)
        } else {
            None
        }
    }

    /// Puts a row at the back of a queue that has room.
    pub fn push(&mut self, index: usize, row: R)
        requires there { index < length self.old.rows }
        requires room { length (slice_index_or self.old.rows index []) < self.old.capacity }
        ensures { self.new ≡ record self.old
            { rows = slice_set self.old.rows index (slice_index_or self.old.rows index [] ++ row ∷ []) } }
    {
        let ring = &mut self.rings[index];
        ring.push_back_reserved(row);
    }

    /// Puts a row at the front of a queue that has room.
    pub fn put_front(&mut self, index: usize, row: R)
        requires there { index < length self.old.rows }
        requires room { length (slice_index_or self.old.rows index []) < self.old.capacity }
        ensures { self.new ≡ record self.old
            { rows = slice_set self.old.rows index (row ∷ slice_index_or self.old.rows index []) } }
    {
        let ring = &mut self.rings[index];
        ring.push_front_reserved(row);
    }

    /// Takes the front row of a queue.
    pub fn take(&mut self, index: usize) -> Option<R>
        ensures row { result ≡ slice_get (slice_index_or self.old.rows index []) 0 }
        ensures within { length (slice_index_or self.old.rows index []) ≤ self.old.capacity }
        ensures rest { self.new ≡
            record self.old { rows = slice_set self.old.rows index (drop 1 (slice_index_or self.old.rows index [])) } }
    {
        if index < self.shown {
            let ring = &mut self.rings[index];
            ring.pop_front()
        } else {
            None
        }
    }

    /// Takes the last row of a queue.
    pub fn take_back(&mut self, index: usize) -> Option<R>
        ensures row { result ≡
            slice_get (slice_index_or self.old.rows index []) (length (slice_index_or self.old.rows index []) - 1) }
        ensures within { length (slice_index_or self.old.rows index []) ≤ self.old.capacity }
        ensures rest { self.new ≡ record self.old {
          rows = slice_set self.old.rows index
              (take (length (slice_index_or self.old.rows index []) - 1) (slice_index_or self.old.rows index []));
        } }
    {
        if index < self.shown {
            let ring = &mut self.rings[index];
            ring.pop_back()
        } else {
            None
        }
    }

    /// The first queue that has a row.
    pub fn first_filled(&self) -> Option<usize>
        ensures some { IfSome result
            (λ i. (0 < length (slice_index_or self.now.rows i [])) × (rows_of (take i self.now.rows) ≡ [])) }
        ensures none { IfNone result (rows_of self.now.rows ≡ []) }
    {
        first_filled(&self.rings, self.shown)
    }

    /// Shows `count` of the queues, all of which are empty.
    pub fn show(&mut self, count: usize)
        requires room { count ≤ self.old.most }
        requires empty { rows_of self.old.rows ≡ [] }
        ensures { self.new ≡ record self.old { rows = replicate count [] } }
    {
        self.shown = count;
    }

    /// Gives the memory of empty queues back.
    pub fn destroy(self)
        requires { rows_of self.rows ≡ [] }
    {
        let Rings {
            capacity: _,
            shown: _,
            rings,
        } = self;
        destroy_rings(rings);
    }
}

/// Which of the first `shown` rings is the first that isn't empty.
fn first_filled<R>(rings: &[VecDeque<R>], shown: usize) -> Option<usize>
    requires { shown ≤ length rings.now }
    ensures some { IfSome result (λ i.
        (0 < length (slice_index_or (shown_rows shown rings.now) i [])) ×
        (rows_of (take i (shown_rows shown rings.now)) ≡ [])) }
    ensures none { IfNone result (rows_of (shown_rows shown rings.now) ≡ []) }
{
    for index in 0..shown {
        if !rings[index].is_empty() {
            return Some(index);
        }
    }
    None
}

/// Gives the memory of empty rings back.
fn destroy_rings<R>(mut rings: Vec<VecDeque<R>>)
    requires { map deque_items rings.items ≡ replicate (length rings.items) [] }
{
    while let Some(ring) = rings.pop() {
        ring.destroy_empty();
    }
    rings.destroy_empty();
}

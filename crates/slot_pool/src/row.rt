//! The places of a pool in their order. A short body lies in its place, and a long one at the same number of a block
//! for long bodies.
ghost use Rattle.std.specs.Prelude.{◌≡◌, ℕ, ◌+◌, ◌-◌, ◌^◌, ◌<◌, ◌≤◌, ◌↔◌, List, [], ◌∷◌, ◌++◌, length, take, slice_set};
ghost use Rattle.std.specs.Prelude.{slice_index_or, IfOk, IsTrue};
ghost use Rattle.raw_block.specs.Run.{run};
ghost use Rattle.slot_pool.specs.Spots.{spot_at, Sets, Adds, Reaches};

use crate::slot_record::{LONGEST, SHORT, SlotRecord};
use raw_block::Block;
use std::alloc::{AllocError, Global};
use std::marker::Model;

/// Places, at most as many as the row was made for. Memory is taken for all at once, and that of a place is first
/// touched when the place is first used, or, where it is for a long body, when that place or one after it has one.
#[derive(Drop)]
pub struct Row {
    block: Block<SlotRecord, Global>,
    long: Block<[u8; LONGEST], Global>,
}

impl Model for Row {
    ghost use Rattle.raw_block.specs.Run.{Run, run, run_code};
    ghost use Rattle.slot_pool.specs.Spots.{Spot, spot_code, joined_spots, ArePlaces};

    ghost Value = { Run Spot };

    ghost coded = { run_code spot_code };

    ghost view = { λ p. run (joined_spots p.block.values p.long.values) p.block.capacity };

    ghost invariant = { λ p. ArePlaces p.block.values p.long.values p.block.capacity p.long.capacity };
}

impl Row {
    /// A row without places yet, which has room for `places`.
    pub(crate) fn of_places(alloc: Global, places: u32) -> Result<Row, AllocError>
        ensures { IfOk result (λ r. r ≡ run [] places) }
    {
        Ok(Row {
            block: Block::with_capacity(alloc, places as usize)?,
            long: Block::with_capacity(alloc, places as usize)?,
        })
    }

    /// How many places were used so far, the free ones among them included.
    #[tactic(auto, using(crate::proofs::Spots::length_joined))]
    pub(crate) fn len(&self) -> usize
        ensures { result ≡ length self.now.values }
    {
        self.block.len()
    }

    /// Whether there may be more.
    #[tactic(auto, using(crate::proofs::Spots::length_joined))]
    pub(crate) fn has_room(&self) -> bool
        ensures { IsTrue result ↔ (length self.now.values < self.now.capacity) }
    {
        self.block.len() < self.block.capacity()
    }

    /// The free place after one.
    #[tactic(auto, using(crate::proofs::Spots::length_joined, crate::proofs::Spots::spot_at_joined))]
    pub(crate) fn next(&self, index: usize) -> u32
        requires { index < length self.now.values }
        ensures { result ≡ (spot_at self.now.values index).next }
    {
        self.block.as_slice()[index].next
    }

    /// The body of a place.
    #[tactic(auto, using(crate::proofs::Rules::of_body))]
    pub(crate) fn body(&self, index: usize) -> &[u8]
        requires there { index < length self.now.values }
        requires fits { (spot_at self.now.values index).len ≤ LONGEST }
        ensures { result.now ≡ take (spot_at self.now.values index).len (spot_at self.now.values index).bytes }
    {
        let place = &self.block.as_slice()[index];
        let len = place.len as usize;
        if len <= SHORT {
            &place.bytes[..len]
        } else {
            &self.long.as_slice()[index][..len]
        }
    }

    /// Adds a reference to the body in the place at `index`.
    pub(crate) fn add_reference(&mut self, index: usize)
        requires there { index < length self.old.values }
        requires few { (spot_at self.old.values index).count < 4294967295 }
        ensures { self.new ≡ run
            (slice_set self.old.values index
            (record (spot_at self.old.values index) { count = (spot_at self.old.values index).count + 1 }))
            self.old.capacity }
    {
        self.block.at_mut(index).add_reference();
    }

    /// Ends a reference, and says whether it was the last.
    pub(crate) fn end_reference(&mut self, index: usize) -> bool
        requires there { index < length self.old.values }
        requires used { 0 < (spot_at self.old.values index).count }
        ensures places { self.new ≡
            run (slice_set self.old.values index
            (record (spot_at self.old.values index) { count = (spot_at self.old.values index).count - 1 }))
            self.old.capacity }
        ensures last { IsTrue result ↔ ((spot_at self.old.values index).count ≡ 1) }
    {
        self.block.at_mut(index).end_reference()
    }

    /// Makes `next` the free place after a free place.
    pub(crate) fn link(&mut self, index: usize, next: u32)
        requires { index < length self.old.values }
        ensures { self.new ≡ run
            (slice_set self.old.values index (record (spot_at self.old.values index) { next = next }))
            self.old.capacity }
    {
        self.block.at_mut(index).next = next;
    }

    /// From now on a place's one reference is to a copy of `body`.
    pub(crate) fn hold(&mut self, index: usize, body: &[u8])
        requires there { index < length self.old.values }
        requires fits { length body.now ≤ LONGEST }
        ensures { Sets self.old self.new index body.now }
    {
        if body.len() <= SHORT {
            self.block.at_mut(index).hold(body);
        } else {
            reach(&mut self.long, index);
            self.block.at_mut(index).hold_elsewhere(body.len() as u32);
            write_front(self.long.at_mut(index), body);
        }
    }

    /// A place more, whose one reference is to a copy of `body`.
    pub(crate) fn push(&mut self, body: &[u8])
        requires room { length self.old.values < self.old.capacity }
        requires fits { length body.now ≤ LONGEST }
        ensures { Adds self.old self.new body.now }
    {
        let last = self.block.len();
        self.block.push(SlotRecord::new());
        self.hold(last, body);
    }
}

/// Fills the places up to this one with zeros, where they have none yet.
fn reach(long: &mut Block<[u8; LONGEST], Global>, index: usize)
    requires there { index < long.old.capacity }
    requires few { long.old.capacity < 2 ^ 32 }
    ensures { Reaches long.old long.new index }
{
    for _ in long.len()..index + 1 {
        long.push([0; LONGEST]);
    }
}

/// Writes `body` to the start of `bytes`.
fn write_front(bytes: &mut [u8; LONGEST], body: &[u8])
    requires { length body.now ≤ LONGEST }
    ensures { take (length body.now) bytes.new ≡ body.now }
{
    bytes[..body.len()].copy_from_slice(body);
}

//! The block: its start, its two numbers, and the owners of its memory.
ghost use Rattle.std.specs.Prelude.{◌≡◌, ℕ, ◌+◌, ◌<◌, List, [], ◌∷◌, ◌++◌, length, slice_index_or, IfOk};

use crate::memory::{Filled, Lease, Start, return_block, take_block};
use std::alloc::{AllocError, Allocator};
use std::marker::Model;
use std_alloc::room::may_hold;

/// At most `capacity` values, one after the other. The memory is taken once, and a place is first touched when a
/// value is pushed into it. The values are plain data: they go with the block.
pub struct Block<T, A: Allocator> {
    start: Start<T>,
    len: usize,
    capacity: usize,
    filled: Filled<T>,
    lease: Lease<T, A>,
    alloc: A,
}

impl<T, A: Allocator> Model for Block<T, A> {
    ghost use Rattle.std.specs.Prelude.{List};
    ghost use Rattle.raw_block.specs.Run.{Run, run, run_code};

    ghost Value = { Run T };

    ghost coded = { run_code T.code };

    ghost use Rattle.raw_block.specs.Block.{IsBlock};

    ghost view = { λ b. run b.filled.values b.capacity };

    ghost invariant = { λ b. IsBlock b };
}

impl<T: Copy, A: Allocator> Block<T, A> {
    ghost use Rattle.raw_block.specs.Run.{run};

    /// An empty block. Besides a refusal of the allocator, a size that no block can have is an error.
    pub fn with_capacity(alloc: A, capacity: usize) -> Result<Self, AllocError>
        ensures { IfOk result (λ b. b ≡ run [] capacity) }
    {
        if !may_hold::<T>(capacity) {
            return Err(AllocError);
        }
        let (start, filled, lease) = take_block(&alloc, capacity)?;
        Ok(Block {
            start,
            len: 0,
            capacity,
            filled,
            lease,
            alloc,
        })
    }
}

impl<T, A: Allocator> Block<T, A> {
    ghost use Rattle.std.specs.Borrow.{sem};
    ghost use Rattle.raw_block.specs.Run.{run};
    ghost use Rattle.raw_block.specs.BlockLends.{lends_item};

    /// How many values were pushed.
    pub fn len(&self) -> usize
        ensures { result ≡ length self.now.values }
    {
        self.len
    }

    /// How many values there is room for, those that were pushed included.
    pub fn capacity(&self) -> usize
        ensures { result ≡ self.now.capacity }
    {
        self.capacity
    }

    /// Puts a value after the others, where there is room for one.
    pub fn push(&mut self, value: T)
        requires { length self.old.values < self.old.capacity }
        ensures { self.new ≡ run (self.old.values ++ value ∷ []) self.old.capacity }
    {
        self.filled.fill(self.start, self.len, value);
        self.len += 1;
    }

    /// The values, in the order in which they were pushed.
    pub fn as_slice(&self) -> &[T]
        ensures { result.now ≡ self.now.values }
    {
        self.filled.values(self.start, self.len)
    }

    /// The value at `index`.
    pub fn at_mut(&mut self, index: usize) -> &mut T
        requires { index < length self.old.values }
        ensures* writes_back { sem 𝓛 (lends_item T.row A.row A.Allocator self.entry index result) }
        ensures value { result.now ≡ slice_index_or self.old.values index result.now }
    {
        let start = self.start;
        self.filled.value_mut(start, index)
    }
}

impl<T, A: Allocator> Drop for Block<T, A> {
    fn drop(self) {
        let Block {
            start,
            len: _,
            capacity,
            filled,
            lease,
            alloc,
        } = self;
        return_block(&alloc, start, capacity, filled, lease);
    }
}

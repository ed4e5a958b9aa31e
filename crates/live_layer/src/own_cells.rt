//! A layer's own cells, as a caller changes them and undoes its changes. A row comes and goes with its message and the
//! message's reference, so no slot and no memory is taken.

ghost use Rattle.live_layer.specs.OwnCells.{OwnChangesAreUndone};

use crate::layer::FileLayer;
use pool_message::{PoolMessage, PoolRow, keep_if_any};
use slot_pool::Pool;

impl FileLayer {
    ghost use Rattle.std.specs.Prelude.{◌≡◌, ℕ, ◌≤◌, List, map, option_map, slice_index, IfSome};
    ghost use Rattle.slot_pool.specs.Held.{Held};
    ghost use Rattle.slot_pool.specs.References.{Covers};
    ghost use Rattle.slot_pool.specs.Times.{times};
    ghost use Rattle.layer_mean.specs.State.{flat_index, has_room, row_at, with_number, with_row, without_front};
    ghost use Rattle.cell_store.specs.Frames.{capacity_in};
    ghost use Rattle.pool_message.specs.Moves.{CanKeep, Kept};
    ghost use Rattle.pool_message.specs.Seen.{content_seen, refs_if, row_refs, row_seen};
    ghost use Rattle.live_layer.specs.Layer.{tree_of, refs_of, state_in, IsInOrder};
    ghost use Rattle.live_layer.specs.OwnCells.{last_row_at, without_back, with_front_row, message_if, capacity_at};
    ghost use Rattle.live_layer.specs.OwnCells.{HasRoom, CanBeOwn, row_refs_if, AreTogether, IsAsBefore};

    /// How many rows each queue of a cell keeps; 0 where it has none.
    #[tactic(auto, unfolding(crate::specs::OwnCells::capacity_at))]
    pub fn capacity(&self, cell: u8) -> u8
        ensures capacity { result ≡ capacity_at self.now cell }
        ensures layer { (p : List Held) → IsInOrder p self.now →
            result ≡ slice_index (map (λ c. capacity_in c.form) (tree_of self.now).cells) cell }
    {
        self.desk.cells.capacity(cell)
    }

    /// Whether a queue is there and has fewer rows than a capacity.
    #[tactic(auto, unfolding(crate::specs::Layer::state_in))]
    pub fn has_room(&self, cell: u8, index: u32, capacity: u8) -> bool
        ensures { (p : List Held) → result ≡ has_room (state_in p self.now) cell index capacity }
    {
        self.desk.cells.has_room(cell, index, capacity)
    }

    /// Writes the number at an index of a cell; outside nothing changes.
    pub fn set(&mut self, cell: u8, index: u32, value: u32)
        ensures state { (p : List Held) → state_in p self.new ≡ with_number (state_in p self.old) cell index value }
        ensures refs { refs_of self.new ≡ refs_of self.old }
        ensures order { (p : List Held) → IsInOrder p self.old → IsInOrder p self.new }
        ensures others { IsAsBefore self.old self.new }
    {
        self.desk.cells.set(cell, index, value);
    }

    /// Writes the number at a row and a column of a square cell; outside nothing changes.
    pub fn set_square(&mut self, cell: u8, row: u32, column: u32, value: u32)
        ensures state { (p : List Held) → state_in p self.new ≡
            with_number (state_in p self.old) cell (flat_index (state_in p self.old).count row column) value }
        ensures refs { refs_of self.new ≡ refs_of self.old }
        ensures order { (p : List Held) → IsInOrder p self.old → IsInOrder p self.new }
        ensures others { IsAsBefore self.old self.new }
    {
        self.desk.cells.set_square(cell, row, column, value);
    }

    /// The message of a row once more, where there is a row and it has one. There is one more reference to its slot.
    pub fn held(&self, pool: &mut Pool, cell: u8, index: u32, row: u32) -> Option<PoolMessage>
        requires there { Covers pool.old (refs_of self.now) }
        requires room { CanKeep pool.old (refs_of self.now) }
        ensures same { (p : List Held) → option_map (content_seen p) result ≡
            message_if (row_at (state_in p self.now) cell index row) }
        ensures own { (p : List Held) → IsInOrder p self.now → CanBeOwn p result }
        ensures among { (i : ℕ) → times i (refs_if result) ≤ times i (refs_of self.now) }
        ensures kept { Kept pool.old pool.new (refs_if result) }
    {
        match self.desk.cells.row(cell, index, row) {
            Some(row) => keep_if_any(&row.message, pool),
            None => None,
        }
    }

    /// Puts a row at the back of a queue.
    pub fn push(&mut self, cell: u8, index: u32, row: PoolRow)
        requires room { HasRoom self.old cell index }
        ensures state { (p : List Held) →
            state_in p self.new ≡ with_row (state_in p self.old) cell index (row_seen p row) }
        ensures refs { AreTogether (refs_of self.new) (row_refs row) (refs_of self.old) }
        ensures order { (p : List Held) → IsInOrder p self.old → CanBeOwn p row.message → IsInOrder p self.new }
        ensures others { IsAsBefore self.old self.new }
    {
        self.desk.cells.push(cell, index, row);
    }

    /// Puts a row before a queue.
    pub fn put_front(&mut self, cell: u8, index: u32, row: PoolRow)
        requires room { HasRoom self.old cell index }
        ensures state { (p : List Held) →
            state_in p self.new ≡ with_front_row (state_in p self.old) cell index (row_seen p row) }
        ensures refs { AreTogether (refs_of self.new) (row_refs row) (refs_of self.old) }
        ensures order { (p : List Held) → IsInOrder p self.old → CanBeOwn p row.message → IsInOrder p self.new }
        ensures others { IsAsBefore self.old self.new }
    {
        self.desk.cells.put_front(cell, index, row);
    }

    /// Takes the front row of a queue, which then has room.
    pub fn take_row(&mut self, cell: u8, index: u32) -> Option<PoolRow>
        ensures row { (p : List Held) → option_map (row_seen p) result ≡ row_at (state_in p self.old) cell index 0 }
        ensures own { (p : List Held) → IsInOrder p self.old → IfSome result (λ row. CanBeOwn p row.message) }
        ensures state { (p : List Held) → state_in p self.new ≡ without_front (state_in p self.old) cell index }
        ensures refs { AreTogether (refs_of self.old) (row_refs_if result) (refs_of self.new) }
        ensures room { IfSome result (λ row. HasRoom self.new cell index) }
        ensures order { (p : List Held) → IsInOrder p self.old → IsInOrder p self.new }
        ensures others { IsAsBefore self.old self.new }
    {
        self.desk.cells.take(cell, index)
    }

    /// Takes the last row of a queue, which then has room.
    pub fn take_back(&mut self, cell: u8, index: u32) -> Option<PoolRow>
        ensures row { (p : List Held) → option_map (row_seen p) result ≡ last_row_at (state_in p self.old) cell index }
        ensures own { (p : List Held) → IsInOrder p self.old → IfSome result (λ row. CanBeOwn p row.message) }
        ensures state { (p : List Held) → state_in p self.new ≡ without_back (state_in p self.old) cell index }
        ensures refs { AreTogether (refs_of self.old) (row_refs_if result) (refs_of self.new) }
        ensures room { IfSome result (λ row. HasRoom self.new cell index) }
        ensures order { (p : List Held) → IsInOrder p self.old → IsInOrder p self.new }
        ensures others { IsAsBefore self.old self.new }
    {
        self.desk.cells.take_back(cell, index)
    }
}

/// Setting a number back to what it was, putting a taken row back in front, and taking back a row that was pushed each
/// leave the state as it was before.
pub fn own_changes_are_undone()
    ensures { OwnChangesAreUndone }
{}

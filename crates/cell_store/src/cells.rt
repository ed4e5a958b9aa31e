//! The store.

ghost use Rattle.std.specs.Prelude.{◌≡◌, ◌≤◌, [], ◌++◌, true, length, map, IfOk, IfNone, IfSome, option_copied};
ghost use Rattle.std.specs.Prelude.{option_to_list, All, vec_capacity};
ghost use Rattle.std.specs.List.{sum_by};
ghost use Rattle.layer_mean.specs.State.{flat_index};
ghost use Rattle.typed_layer.specs.View.{layer_tree, form_tree};
ghost use Rattle.cell_store.specs.Kept.{kept_at, numbers_kept, queues_kept, kept_number, kept_rows, kept_row};
ghost use Rattle.cell_store.specs.Kept.{kept_capacity, keeps_room, with_kept_number, with_last, with_first};
ghost use Rattle.cell_store.specs.Kept.{without_first, without_last, first_row, last_row, rows_in, emptied};
ghost use Rattle.cell_store.specs.Fresh.{kept_first, kept_fresh, IsFor};
ghost use Rattle.msg_core.specs.View.{most_members};

use crate::membership::Membership;
use crate::slot::{self, StoredCell, slot_at};
use std::alloc::{AllocError, Global};
use std::marker::Model;
use typed_layer::TypedLayer;

/// The cells of one layer of one member, with what the layer is told of the view. Rows are only moved in and out, so
/// they may be of a type that can't be let go.
pub struct Cells<R> {
    membership: Membership,
    /// The most members that there is room for.
    most: u32,
    block: Vec<u32>,
    slots: Vec<StoredCell<R>>,
}

impl<R> Model for Cells<R> {
    ghost use Rattle.std.specs.Prelude.{map, vec_capacity};
    ghost use Rattle.cell_store.specs.Kept.{Kept};
    ghost use Rattle.cell_store.specs.Coded.{kept_code};
    ghost use Rattle.cell_store.specs.Slots.{slot_kept, AreSlots};

    ghost Value = { Kept R };

    ghost coded = { kept_code R.code };

    ghost view = { λ c. record {
      me = c.membership.me;
      count = c.membership.count;
      ltime = c.membership.ltime;
      most = c.most;
      cells = map (slot_kept c.block.items) c.slots.items;
    } };

    ghost invariant = { λ c. AreSlots c.membership.count c.most (vec_capacity c.block) c.block.items c.slots.items };
}

impl<R> Cells<R> {
    /// The cells of `layer` before the first event, at a member of a view. All memory is taken here.
    pub fn new(
        alloc: Global,
        layer: &TypedLayer,
        membership: Membership,
    ) -> Result<Cells<R>, AllocError>
        requires { membership.count ≤ most_members }
        ensures { IfOk result (λ c. c ≡ kept_fresh (layer_tree layer.now) membership.me membership.count
            membership.ltime membership.count) }
    {
        let (block, slots) = slot::begin_all(alloc, &layer.cells, membership)?;
        Ok(Cells {
            membership,
            most: membership.count,
            block,
            slots,
        })
    }

    /// Begins again, at a member of a view of no more members than at first. No row may be left.
    pub fn reset(&mut self, layer: &TypedLayer, membership: Membership)
        requires layer { IsFor (layer_tree layer.now) self.old }
        requires few { membership.count ≤ self.old.most }
        requires empty { rows_in self.old ≡ [] }
        ensures fresh { self.new ≡ kept_fresh (layer_tree layer.now) membership.me membership.count membership.ltime
            self.old.most }
        ensures within { self.old.most ≤ most_members }
    {
        self.membership = membership;
        slot::restart_all(
            &mut self.block,
            &mut self.slots,
            &layer.cells,
            membership,
            self.most,
        );
    }

    /// The own rank.
    pub fn me(&self) -> u32
        ensures { result ≡ self.now.me }
    {
        self.membership.me
    }

    /// The number of members.
    pub fn count(&self) -> u32
        ensures count { result ≡ self.now.count }
        ensures few { (result ≤ self.now.most) × (self.now.most ≤ most_members) }
    {
        self.membership.count
    }

    /// How many views came before.
    pub fn ltime(&self) -> u32
        ensures { result ≡ self.now.ltime }
    {
        self.membership.ltime
    }

    /// The number at an index of a cell; 0 outside.
    pub fn get(&self, cell: u8, index: u32) -> u32
        ensures { result ≡ kept_number self.now cell index }
    {
        match slot_at(&self.slots, cell) {
            Some(slot) => {
                if (index as usize) < slot.count {
                    self.block[slot.at + index as usize]
                } else {
                    0
                }
            }
            None => 0,
        }
    }

    /// The number at a row and a column of a square cell; 0 outside.
    pub fn square(&self, cell: u8, row: u32, column: u32) -> u32
        ensures { result ≡ kept_number self.now cell (flat_index self.now.count row column) }
    {
        let index = self.flat_index(row, column);
        self.get(cell, index)
    }

    /// Writes the number at an index of a cell; outside nothing changes.
    pub fn set(&mut self, cell: u8, index: u32, value: u32)
        ensures { self.new ≡ with_kept_number self.old cell index value }
    {
        if let Some(slot) = slot_at(&self.slots, cell) {
            if (index as usize) < slot.count {
                let place = slot.at + index as usize;
                self.block[place] = value;
            }
        }
    }

    /// Writes the number at a row and a column of a square cell; outside nothing changes.
    pub fn set_square(&mut self, cell: u8, row: u32, column: u32, value: u32)
        ensures { self.new ≡ with_kept_number self.old cell (flat_index self.old.count row column) value }
    {
        let index = self.flat_index(row, column);
        self.set(cell, index, value);
    }

    fn flat_index(&self, row: u32, column: u32) -> u32
        ensures { result ≡ flat_index self.now.count row column }
    {
        let count = self.membership.count;
        if row < count && column < count {
            row * count + column
        } else {
            count * count
        }
    }

    /// The most members that there is room for.
    pub fn most(&self) -> u32
        ensures { result ≡ self.now.most }
    {
        self.most
    }

    /// How many numbers a cell has.
    pub fn numbers_count(&self, cell: u8) -> u32
        ensures { result ≡ length (numbers_kept (kept_at self.now cell)) }
    {
        match slot_at(&self.slots, cell) {
            Some(slot) => slot.count as u32,
            None => 0,
        }
    }

    /// How many queues a cell has.
    pub fn queues_count(&self, cell: u8) -> u32
        ensures { result ≡ length (queues_kept (kept_at self.now cell)) }
    {
        match slot_at(&self.slots, cell) {
            Some(slot) => slot.rings.count() as u32,
            None => 0,
        }
    }

    /// How many rows a queue has.
    pub fn len(&self, cell: u8, index: u32) -> u32
        ensures { result ≡ length (kept_rows self.now cell index) }
    {
        match slot_at(&self.slots, cell) {
            Some(slot) => u32::from(slot.rings.len(index as usize)),
            None => 0,
        }
    }

    /// A row of a queue, the front being 0.
    pub fn row(&self, cell: u8, index: u32, row: u32) -> Option<&R>
        ensures { option_copied result ≡ kept_row self.now cell index row }
    {
        match slot_at(&self.slots, cell) {
            Some(slot) => slot.rings.row(index as usize, row as usize),
            None => None,
        }
    }

    /// How many rows each queue of a cell keeps; 0 where it has none.
    pub fn capacity(&self, cell: u8) -> u8
        ensures { result ≡ kept_capacity self.now cell }
    {
        match slot_at(&self.slots, cell) {
            Some(slot) => slot.capacity(),
            None => 0,
        }
    }

    /// Whether a queue is there and has fewer rows than a capacity.
    pub fn has_room(&self, cell: u8, index: u32, capacity: u8) -> bool
        ensures { result ≡ keeps_room self.now cell index capacity }
    {
        match slot_at(&self.slots, cell) {
            Some(slot) => slot.has_room(index as usize, capacity),
            None => false,
        }
    }

    /// Puts a row at the back of a queue.
    pub fn push(&mut self, cell: u8, index: u32, row: R)
        requires { keeps_room self.old cell index (kept_capacity self.old cell) ≡ true }
        ensures { self.new ≡ with_last self.old cell index row }
    {
        let slot = &mut self.slots[cell as usize];
        slot.rings.push(index as usize, row);
    }

    /// Puts a row at the front of a queue.
    pub fn put_front(&mut self, cell: u8, index: u32, row: R)
        requires { keeps_room self.old cell index (kept_capacity self.old cell) ≡ true }
        ensures { self.new ≡ with_first self.old cell index row }
    {
        let slot = &mut self.slots[cell as usize];
        slot.rings.put_front(index as usize, row);
    }

    /// Takes the front row of a queue, which has room after it.
    pub fn take(&mut self, cell: u8, index: u32) -> Option<R>
        ensures row { result ≡ first_row self.old cell index }
        ensures rest { self.new ≡ without_first self.old cell index }
        ensures room { IfSome result (λ row. keeps_room self.new cell index (kept_capacity self.new cell) ≡ true) }
    {
        if (cell as usize) < self.slots.len() {
            let slot = &mut self.slots[cell as usize];
            slot.rings.take(index as usize)
        } else {
            None
        }
    }

    /// Takes the last row of a queue, which has room after it.
    pub fn take_back(&mut self, cell: u8, index: u32) -> Option<R>
        ensures row { result ≡ last_row self.old cell index }
        ensures rest { self.new ≡ without_last self.old cell index }
        ensures room { IfSome result (λ row. keeps_room self.new cell index (kept_capacity self.new cell) ≡ true) }
    {
        if (cell as usize) < self.slots.len() {
            let slot = &mut self.slots[cell as usize];
            slot.rings.take_back(index as usize)
        } else {
            None
        }
    }

    /// Takes the front row of the first queue that has one. Repeated, it empties all queues.
    pub fn take_any(&mut self) -> Option<R>
        ensures rows { rows_in self.old ≡ option_to_list result ++ rows_in self.new }
        ensures none { IfNone result (rows_in self.new ≡ []) }
        ensures kept { emptied self.new ≡ emptied self.old }
    {
        match slot::first_filled(&self.slots) {
            Some((cell, index)) => {
                let slot = &mut self.slots[cell];
                slot.rings.take(index)
            }
            None => None,
        }
    }

    /// Gives the memory back. No row may be left.
    pub fn destroy(self)
        requires { rows_in self ≡ [] }
    {
        let Cells {
            membership: _,
            most: _,
            block: _,
            slots,
        } = self;
        slot::destroy_all(slots);
    }
}

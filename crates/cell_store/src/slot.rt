//! The cells of a layer, one after the other.

ghost use Rattle.std.specs.Prelude.{◌≡◌, ◌+◌, ◌<◌, ◌≤◌, [], ◌++◌, ◌&&◌, true, nat_lt, length, map, replicate};
ghost use Rattle.std.specs.Prelude.{slice_get, slice_index_or, option_copied, IfOk, IfNone, IfSome, OnOk, OnErr};
ghost use Rattle.std.specs.Prelude.{vec_capacity};
ghost use Rattle.std.specs.List.{sum_by};
ghost use Rattle.layer_mean.specs.State.{size_of};
ghost use Rattle.typed_layer.specs.View.{cell_tree, form_tree};
ghost use Rattle.cell_store.specs.Kept.{rows_of};
ghost use Rattle.cell_store.specs.Fresh.{tree_form};
ghost use Rattle.cell_store.specs.Frames.{frame_in, capacity_in, numbers_for, queues_for, first_numbers};
ghost use Rattle.cell_store.specs.Slots.{slot_first, slot_again, slot_form, slot_capacity, slot_rows, frames_of};
ghost use Rattle.cell_store.specs.Slots.{AreLaid, AreFirst, HasFirst};
ghost use Rattle.msg_core.specs.View.{most_members};

use crate::initial::initial_value;
use crate::membership::Membership;
use crate::rings::Rings;
use layer_words::Shape;
use std::alloc::{AllocError, Global};
use typed_layer::{Cell, Form};

/// Whether a cell has numbers or queues, and how many of them.
#[derive(Clone, Copy, PartialEq, Eq, Debug)]
pub enum Frame {
    Numbers(Shape),
    Queues(Shape),
}

/// A cell: its part of the block of numbers, and its queues.
pub struct StoredCell<R> {
    pub frame: Frame,
    /// Where its numbers begin in the block, and how many there are.
    pub at: usize,
    pub count: usize,
    pub rings: Rings<R>,
}

impl<R> StoredCell<R> {
    /// A cell of a form at a place of the block, with all its queues.
    fn begin(alloc: Global, form: &Form, at: usize, count: u32) -> Result<StoredCell<R>, AllocError>
        requires { count ≤ most_members }
        ensures { IfOk result (λ s. s ≡ slot_first count count at (form_tree form.now)) }
    {
        let frame = frame_of(form);
        let rings = Rings::with_capacity(alloc, queues_in(frame, count), capacity_of(form))?;
        Ok(StoredCell {
            frame,
            at,
            count: numbers_in(frame, count),
            rings,
        })
    }

    /// Puts the numbers at another place of the block, and shows the empty queues of n members.
    fn restart(&mut self, at: usize, count: u32)
        requires few { count ≤ most_members }
        requires room { queues_for count self.old.frame ≤ self.old.rings.most }
        requires empty { rows_of self.old.rings.rows ≡ [] }
        ensures { self.new ≡ slot_again count at self.old }
    {
        self.at = at;
        self.count = numbers_in(self.frame, count);
        let queues = queues_in(self.frame, count);
        self.rings.show(queues);
    }

    /// How many rows each queue keeps; 0 where there is none.
    pub fn capacity(&self) -> u8
        ensures { result ≡ slot_capacity self.now }
    {
        match self.frame {
            Frame::Numbers(_) => 0,
            Frame::Queues(_) => self.rings.capacity(),
        }
    }

    /// Whether a queue is there and has fewer rows than a capacity.
    pub fn has_room(&self, index: usize, capacity: u8) -> bool
        ensures { result ≡ (nat_lt index (length self.now.rings.rows) &&
            nat_lt (length (slice_index_or self.now.rings.rows index [])) capacity) }
    {
        index < self.rings.count() && self.rings.len(index) < capacity
    }
}

fn frame_of(form: &Form) -> Frame
    ensures { result ≡ frame_in (form_tree form.now) }
{
    match form {
        Form::Numbers { shape, .. } => Frame::Numbers(*shape),
        Form::Queue { .. } => Frame::Queues(Shape::One),
        Form::Queues { .. } => Frame::Queues(Shape::Array),
    }
}

fn capacity_of(form: &Form) -> u8
    ensures { result ≡ capacity_in (form_tree form.now) }
{
    match form {
        Form::Numbers { .. } => 0,
        Form::Queue { capacity, .. } | Form::Queues { capacity, .. } => *capacity,
    }
}

/// How many numbers or queues a shape has for `count` members.
fn size_of(count: u32, shape: Shape) -> usize
    requires { count ≤ most_members }
    ensures { result ≡ size_of count shape }
{
    match shape {
        Shape::One => 1,
        Shape::Array => count as usize,
        Shape::Square => count as usize * count as usize,
    }
}

fn numbers_in(frame: Frame, count: u32) -> usize
    requires { count ≤ most_members }
    ensures { result ≡ numbers_for count frame }
{
    match frame {
        Frame::Numbers(shape) => size_of(count, shape),
        Frame::Queues(_) => 0,
    }
}

fn queues_in(frame: Frame, count: u32) -> usize
    requires { count ≤ most_members }
    ensures { result ≡ queues_for count frame }
{
    match frame {
        Frame::Numbers(_) => 0,
        Frame::Queues(shape) => size_of(count, shape),
    }
}

/// A cell, if it is there.
pub fn slot_at<R>(slots: &[StoredCell<R>], cell: u8) -> Option<&StoredCell<R>>
    ensures { option_copied result ≡ slice_get slots.now cell }
{
    slots.get(usize::from(cell))
}

/// Puts the first numbers of a cell after those in the block.
fn fill(block: &mut Vec<u32>, form: &Form, membership: Membership) -> Result<(), AllocError>
    requires { membership.count ≤ most_members }
    ensures numbers { OnOk result
        (block.new.items ≡ block.old.items ++ first_numbers membership.me membership.count membership.ltime
        (form_tree form.now)) }
    ensures full { OnErr result (vec_capacity block.old < length block.old.items +
        numbers_for membership.count (frame_in (form_tree form.now))) }
    ensures capacity { vec_capacity block.old ≤ vec_capacity block.new }
{
    if let Form::Numbers { shape, initial } = form {
        let value = initial_value(initial, membership);
        let size = size_of(membership.count, *shape);
        block.resize(block.len() + size, value)?;
    }
    Ok(())
}

/// A cell with its first numbers after those in the block.
fn fill_and_begin<R>(
    alloc: Global,
    block: &mut Vec<u32>,
    form: &Form,
    membership: Membership,
) -> Result<StoredCell<R>, AllocError>
    requires { membership.count ≤ most_members }
    ensures numbers { OnOk result
        (block.new.items ≡ block.old.items ++ first_numbers membership.me membership.count membership.ltime
        (form_tree form.now)) }
    ensures slot { IfOk result (λ s. s ≡ slot_first membership.count membership.count (length block.old.items)
        (form_tree form.now)) }
{
    let at = block.len();
    fill(block, form, membership)?;
    StoredCell::begin(alloc, form, at, membership.count)
}

/// The first numbers of some cells in a block, and the cells.
pub fn begin_all<R>(
    alloc: Global,
    cells: &[Cell],
    membership: Membership,
) -> Result<(Vec<u32>, Vec<StoredCell<R>>), AllocError>
    requires { membership.count ≤ most_members }
    ensures { IfOk result (λ made. AreFirst membership.me membership.count membership.ltime membership.count
        (map cell_tree cells.now) made.0.items made.1.items) }
{
    let mut block = Vec::new(alloc);
    let mut slots = Vec::with_capacity(alloc, cells.len())?;
    for cell in cells {
        match fill_and_begin(alloc, &mut block, &cell.form, membership) {
            Ok(slot) => slots.push_reserved(slot),
            Err(error) => {
                destroy_all(slots);
                return Err(error);
            }
        }
    }
    Ok((block, slots))
}

/// Begins again with cells that have no rows and room for `_most` members, within the memory that there is.
pub fn restart_all<R>(
    block: &mut Vec<u32>,
    slots: &mut Vec<StoredCell<R>>,
    cells: &[Cell],
    membership: Membership,
    _most: u32,
)
    requires few { (membership.count ≤ _most) × (_most ≤ most_members) }
    requires laid { AreLaid _most 0 (length block.old.items) slots.old.items }
    requires room { sum_by (numbers_for _most) (frames_of slots.old.items) ≤ vec_capacity block.old }
    requires forms { map slot_form slots.old.items ≡ map (λ c. tree_form c.form) (map cell_tree cells.now) }
    requires empty { slot_rows slots.old.items ≡ [] }
    ensures first { AreFirst membership.me membership.count membership.ltime _most (map cell_tree cells.now)
        block.new.items slots.new.items }
    ensures capacity { vec_capacity block.old ≤ vec_capacity block.new }
{
    block.clear();
    for index in 0..slots.len() {
        let at = block.len();
        let form = &cells[index].form;
        match fill(block, form, membership) {
            Ok(()) => {}
            Err(_) => unreachable!(),
        }
        let slot = &mut slots[index];
        slot.restart(at, membership.count);
    }
}

/// The first cell that has a row, and the first queue of it that has one.
pub fn first_filled<R>(slots: &[StoredCell<R>]) -> Option<(usize, usize)>
    ensures some { IfSome result (λ found. HasFirst slots.now found.0 found.1) }
    ensures none { IfNone result (slot_rows slots.now ≡ []) }
{
    for cell in 0..slots.len() {
        if let Some(index) = slots[cell].rings.first_filled() {
            return Some((cell, index));
        }
    }
    None
}

/// Gives the memory of cells without rows back.
pub fn destroy_all<R>(mut slots: Vec<StoredCell<R>>)
    requires { slot_rows slots.items ≡ [] }
{
    while let Some(slot) = slots.pop() {
        let StoredCell {
            frame: _,
            at: _,
            count: _,
            rings,
        } = slot;
        rings.destroy();
    }
    slots.destroy_empty();
}

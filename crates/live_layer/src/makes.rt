//! Desks that are made, and that end.

ghost use Rattle.std.specs.Prelude.{◌≡◌, ◌+◌, ◌≤◌, [], None, map, IfOk, IfSome};
ghost use Rattle.circular_buffer.specs.Buffer.{buffer};
ghost use Rattle.slot_pool.specs.References.{Covers};
ghost use Rattle.desk_needs.specs.Layouts as room;
ghost use Rattle.desk_needs.specs.Layouts.{rows_kept};
ghost use Rattle.layer_stage.specs.Room.{most_kept};
ghost use Rattle.typed_layer.specs.View.{cell_tree, form_tree, layer_tree};
ghost use Rattle.cell_store.specs.Kept.{rows_in, emptied};
ghost use Rattle.pool_message.specs.Moves.{Returned};
ghost use Rattle.live_layer.specs.Fits.{rows_most};
ghost use Rattle.live_layer.specs.Fresh.{IsFresh, IsReserved};
ghost use Rattle.live_layer.specs.Rest.{IsAtRest, IsMadeFor};
ghost use Rattle.live_layer.specs.Stock.{kept_refs};
ghost use Rattle.msg_core.specs.View.{most_members};

use crate::desk::{FileDesk, MOST_BOUND, MOST_DESK_ROWS, MOST_OWN};
use cell_store::{Cells, Membership};
use desk_needs::{Reserve, reserve_for};
use msg_core::MOST_MEMBERS;
use pool_message::{Messages, PoolRow, Tray};
use slot_pool::Pool;
use std::alloc::{AllocError, Global};
use typed_layer::{Cell, Form, TypedLayer};

/// Where messages lie, and what is sent.
struct Lists {
    tray: Tray,
    hand: Messages,
}

impl Lists {
    fn fresh(alloc: Global, messages: usize, hand: usize) -> Result<Lists, AllocError>
        ensures { IfOk result
            (λ l. (l.tray ≡ record { arrived = None; messages = buffer [] messages; sent = buffer [] 0 }) ×
            (l.hand ≡ buffer [] hand)) }
    {
        let tray = Tray::with_messages(alloc, messages)?;
        match Messages::with_places(alloc, hand) {
            Ok(hand) => Ok(Lists { tray, hand }),
            Err(error) => {
                tray.close();
                Err(error)
            }
        }
    }

    fn close(self)
        requires { (self.tray.arrived ≡ None) × (self.tray.messages.items ≡ []) × (self.tray.sent.items ≡ []) ×
            (self.hand.items ≡ []) }
    {
        let Lists { tray, hand } = self;
        tray.close();
        hand.close();
    }
}

/// How many rows each queue of a cell keeps; 0 where it has none.
fn capacity_of(form: &Form) -> u8
    ensures { result ≡ rows_kept (form_tree form.now) }
{
    match form {
        Form::Numbers { .. } => 0,
        Form::Queue { capacity, .. } | Form::Queues { capacity, .. } => *capacity,
    }
}

/// The most rows that cells keep, if a desk may have as many.
fn rows_at_most(cells: &[Cell]) -> Option<u32>
    ensures { IfSome result (λ rows.
        (rows ≡ rows_most (map (λ c. rows_kept c.form) (map cell_tree cells.now))) × (rows ≤ most_kept)) }
{
    let mut rows = 0;
    for cell in cells {
        rows += MOST_MEMBERS as u32 * u32::from(capacity_of(&cell.form));
        if rows > MOST_DESK_ROWS {
            return None;
        }
    }
    Some(rows)
}

/// What a desk of a layer is made for, if a desk may have as much; more than that is want of memory.
fn reserve_few(layer: &TypedLayer) -> Result<Reserve, AllocError>
    ensures { IfOk result (IsReserved (layer_tree layer.now)) }
{
    let reserve = reserve_for(layer);
    let Some(rows) = rows_at_most(&layer.cells) else {
        return Err(AllocError);
    };
    let beside = u32::from(reserve.messages) + 2;
    if reserve.hand > MOST_OWN - rows - beside {
        return Err(AllocError);
    }
    Ok(reserve)
}

/// An empty desk for a layer, at a member of a view. All memory is taken here.
pub(crate) fn make(
    alloc: Global,
    layer: &TypedLayer,
    membership: Membership,
) -> Result<FileDesk, AllocError>
    requires members { membership.count ≤ most_members }
    requires made { IsMadeFor (layer_tree layer.now) (room.layout_of (layer_tree layer.now) 0) }
    ensures fresh { IfOk result (IsFresh (layer_tree layer.now) membership.me membership.count membership.ltime) }
    ensures most { IfOk result (λ d. d.cells.most ≡ membership.count) }
{
    let reserve = reserve_few(layer)?;
    let numbers = Vec::with_capacity(alloc, usize::from(reserve.numbers) + MOST_BOUND)?;
    let lists = Lists::fresh(
        alloc,
        usize::from(reserve.messages) + 1,
        reserve.hand as usize,
    )?;
    match Cells::new(alloc, layer, membership) {
        Ok(cells) => {
            let Lists { tray, hand } = lists;
            Ok(FileDesk {
                cells,
                numbers,
                tray,
                hand,
                first: 0,
                places: 0,
            })
        }
        Err(error) => {
            lists.close();
            Err(error)
        }
    }
}

/// Gives the references of all rows back.
fn give_rows_back(cells: &mut Cells<PoolRow>, pool: &mut Pool)
    requires { Covers pool.old (kept_refs cells.old) }
    ensures returned { Returned pool.old pool.new (kept_refs cells.old) }
    ensures empty { rows_in cells.new ≡ [] }
    ensures kept { emptied cells.new ≡ emptied cells.old }
{
    while let Some(row) = cells.take_any() {
        row.give_back(pool);
    }
}

/// Begins again with an empty desk, at a member of a view. The references of all rows go back.
pub(crate) fn restart(
    desk: &mut FileDesk,
    pool: &mut Pool,
    layer: &TypedLayer,
    membership: Membership,
)
    requires rest { IsAtRest (layer_tree layer.now) pool.old desk.old }
    requires covered { Covers pool.old (kept_refs desk.old.cells) }
    requires few { membership.count ≤ desk.old.cells.most }
    ensures returned { Returned pool.old pool.new (kept_refs desk.old.cells) }
    ensures fresh { IsFresh (layer_tree layer.now) membership.me membership.count membership.ltime desk.new }
    ensures most { desk.new.cells.most ≡ desk.old.cells.most }
{
    give_rows_back(&mut desk.cells, pool);
    desk.cells.reset(layer, membership);
}

/// Ends a desk on which rows alone lie, and gives their references and its memory back.
pub(crate) fn close(desk: FileDesk, pool: &mut Pool, layer: &TypedLayer)
    requires rest { IsAtRest (layer_tree layer.now) pool.old desk }
    requires covered { Covers pool.old (kept_refs desk.cells) }
    ensures { Returned pool.old pool.new (kept_refs desk.cells) }
{
    let FileDesk {
        mut cells,
        numbers: _,
        tray,
        hand,
        first: _,
        places: _,
    } = desk;
    give_rows_back(&mut cells, pool);
    cells.destroy();
    let lists = Lists { tray, hand };
    lists.close();
}

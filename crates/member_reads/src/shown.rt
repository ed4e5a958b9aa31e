//! Members as they are shown.

ghost use Rattle.std.specs.Prelude.{◌≡◌, List, map, length, option_map, IfSome};
ghost use Rattle.std.specs.List.{AllByRecursion};
ghost use Rattle.slot_pool.specs.Held.{Held};
ghost use Rattle.layer_mean.specs.State.{number_at, numbers_in, queues_in, cell_at, rows_at, row_at};
ghost use Rattle.live_layer.specs.Layer.{IsInOrder, state_in};
ghost use Rattle.member_reads.specs.Rows.{row_meant};
ghost use Rattle.member_reads.specs.Shown.{member_in, state_of, state_shown, view_shown};

use crate::row::{RowView, row_of};
use live_layer::FileLayer;
use msg_core::View;
use slot_pool::Pool;
use std::marker::Model;

/// A member: the view that it is in, if it is in one, and its layers, lowest first, whose messages stand in a pool.
#[derive(Drop)]
pub struct Shown<'b> {
    view: Option<View>,
    layers: &'b [FileLayer],
    pool: &'b Pool,
}

impl<'b> Model for Shown<'b> {
    ghost use Rattle.std.specs.Prelude.{map};
    ghost use Rattle.std.specs.List.{AllByRecursion};
    ghost use Rattle.run_mean.specs.Member.{Member};
    ghost use Rattle.member_reads.specs.Codes.{member_code};

    ghost Value = { Member };

    ghost coded = { member_code };

    ghost use Rattle.live_layer.specs.Layer.{IsInOrder, state_in};
    ghost use Rattle.member_reads.specs.Shown.{member_in};

    ghost view = { λ s. member_in s.view (map (state_in s.pool.now) s.layers.now) };

    ghost invariant = { λ s. AllByRecursion (IsInOrder s.pool.now) s.layers.now };
}

impl<'b> Shown<'b> {
    /// A member that is in this view, if it is in one, with layers that are in order in a pool.
    pub fn of(view: Option<View>, layers: &'b [FileLayer], pool: &'b Pool) -> Shown<'b>
        requires { AllByRecursion (IsInOrder pool.now) layers.now }
        ensures { result ≡ member_in view (map (state_in pool.now) layers.now) }
    {
        Shown { view, layers, pool }
    }

    /// The view that it is in.
    pub fn view(&self) -> Option<View>
        ensures { result ≡ view_shown self.now }
    {
        self.view
    }

    /// A number of a cell by its flat index; 0 where there is none.
    pub fn number(&self, place: u8, cell: u8, index: u32) -> u32
        ensures { result ≡ number_at (state_shown self.now place) cell index }
    {
        match layer_at(self.view, self.layers, place) {
            Some(layer) => layer.number(cell, index),
            None => 0,
        }
    }

    /// How many numbers a cell has; 0 where there is none, or where it is of queues.
    pub fn numbers_count(&self, place: u8, cell: u8) -> u32
        ensures { result ≡ length (numbers_in (cell_at (state_shown self.now place) cell)) }
    {
        match layer_at(self.view, self.layers, place) {
            Some(layer) => layer.numbers_count(cell),
            None => 0,
        }
    }

    /// How many queues a cell has; 0 where there is none, or where it is of numbers.
    pub fn queues_count(&self, place: u8, cell: u8) -> u32
        ensures { result ≡ length (queues_in (cell_at (state_shown self.now place) cell)) }
    {
        match layer_at(self.view, self.layers, place) {
            Some(layer) => layer.queues_count(cell),
            None => 0,
        }
    }

    /// How many rows a queue of a cell has.
    pub fn rows(&self, place: u8, cell: u8, index: u32) -> u32
        ensures { result ≡ length (rows_at (state_shown self.now place) cell index) }
    {
        match layer_at(self.view, self.layers, place) {
            Some(layer) => layer.rows(cell, index),
            None => 0,
        }
    }

    /// A row of a queue of a cell, the front one being 0.
    pub fn row(&self, place: u8, cell: u8, index: u32, row: u32) -> Option<RowView<'b>>
        ensures { option_map row_meant result ≡ row_at (state_shown self.now place) cell index row }
    {
        match layer_at(self.view, self.layers, place) {
            Some(layer) => match layer.row(cell, index, row) {
                Some(row) => Some(row_of(row, self.pool)),
                None => None,
            },
            None => None,
        }
    }
}

/// The layer at a place, of a member that is in a view; None where it isn't in one, or has no layer there.
fn layer_at(view: Option<View>, layers: &[FileLayer], place: u8) -> Option<&FileLayer>
    ensures state { (p : List Held) →
        state_of p result ≡ state_shown (member_in view (map (state_in p) layers.now)) place }
    ensures order { (p : List Held) → AllByRecursion (IsInOrder p) layers.now →
        IfSome result (λ layer. IsInOrder p layer.now) }
{
    match view {
        Some(_) => layers.get(usize::from(place)),
        None => None,
    }
}

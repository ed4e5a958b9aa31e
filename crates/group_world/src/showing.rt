//! The members of a group, read in place.

ghost use Rattle.std.specs.Prelude.{◌≡◌};
ghost use Rattle.group_feed.specs.Showing as showing;
ghost use Rattle.member_reads.specs.Rows.{row_meant};

use crate::world::World;
use group_feed::{MessageView, RowView, Shows, Spot};
use msg_core::View;

/// A row of a member, as a group shows it.
fn row_of<'b>(row: member_reads::RowView<'b>) -> RowView<'b>
    ensures { showing.row_meant result ≡ row_meant row.entry }
{
    match row.message {
        Some(message) => RowView {
            numbers: row.numbers,
            message: Some(MessageView {
                headers: message.headers,
                body: message.body,
            }),
        },
        None => RowView {
            numbers: row.numbers,
            message: None,
        },
    }
}

impl Shows for World {
    fn view(&self, id: u8) -> Option<View> {
        match self.shown(id) {
            Some(shown) => shown.view(),
            None => None,
        }
    }

    fn number(&self, spot: Spot, index: u32) -> u32 {
        match self.shown(spot.id) {
            Some(shown) => shown.number(spot.place, spot.cell, index),
            None => 0,
        }
    }

    fn numbers_count(&self, spot: Spot) -> u32 {
        match self.shown(spot.id) {
            Some(shown) => shown.numbers_count(spot.place, spot.cell),
            None => 0,
        }
    }

    fn queues_count(&self, spot: Spot) -> u32 {
        match self.shown(spot.id) {
            Some(shown) => shown.queues_count(spot.place, spot.cell),
            None => 0,
        }
    }

    fn rows(&self, spot: Spot, queue: u32) -> u32 {
        match self.shown(spot.id) {
            Some(shown) => shown.rows(spot.place, spot.cell, queue),
            None => 0,
        }
    }

    fn row(&self, spot: Spot, queue: u32, row: u32) -> Option<RowView<'_>> {
        match self.shown(spot.id) {
            Some(shown) => match shown.row(spot.place, spot.cell, queue, row) {
                Some(row) => Some(row_of(row)),
                None => None,
            },
            None => None,
        }
    }
}

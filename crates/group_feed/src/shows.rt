//! Groups whose members are shown.

ghost use Rattle.std.specs.Prelude.{◌≡◌, length, option_map};
ghost use Rattle.layer_mean.specs.State.{cell_at, number_at, numbers_in, queues_in, row_at, rows_at};
ghost use Rattle.group_feed.specs.Showing.{row_meant, shown_in, state_at, view_shown};

use crate::feed::Feed;
use crate::row::RowView;
use crate::spot::Spot;
use msg_core::View;

/// A group whose members are read in place: where each is, and what the cells of its layers hold. A member that the
/// group doesn't have is read as one in no view; a member in no view, or without such a layer, is read as having a
/// state without cells.
pub trait Shows: Feed {
    /// The view that a member is in, if it is in one.
    fn view(&self, id: u8) -> Option<View>
        ensures { result ≡ view_shown (shown_in (Self.group self.now) id) };

    /// A number of a cell by its flat index; 0 where there is none.
    fn number(&self, spot: Spot, index: u32) -> u32
        ensures { result ≡ number_at (state_at (Self.group self.now) spot.id spot.place) spot.cell index };

    /// How many numbers a cell has; 0 where there is none, or where it is of queues.
    fn numbers_count(&self, spot: Spot) -> u32
        ensures { result ≡ length
            (numbers_in (cell_at (state_at (Self.group self.now) spot.id spot.place) spot.cell)) };

    /// How many queues a cell has; 0 where there is none, or where it is of numbers.
    fn queues_count(&self, spot: Spot) -> u32
        ensures { result ≡ length (queues_in (cell_at (state_at (Self.group self.now) spot.id spot.place) spot.cell)) };

    /// How many rows a queue of a cell has.
    fn rows(&self, spot: Spot, queue: u32) -> u32
        ensures { result ≡ length (rows_at (state_at (Self.group self.now) spot.id spot.place) spot.cell queue) };

    /// A row of a queue of a cell, the front one being 0.
    fn row(&self, spot: Spot, queue: u32, row: u32) -> Option<RowView<'_>>
        ensures { option_map row_meant result ≡ row_at (state_at (Self.group self.now) spot.id spot.place) spot.cell
            queue row };
}

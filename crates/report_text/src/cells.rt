//! What the lines of cells are built of.

ghost use Rattle.std.specs.Prelude.{◌≡◌, ◌++◌, ◌<◌, OnOk, length, slice_index_or, codes};
ghost use Rattle.stack_judge.specs.Answer.{stack_tree};
ghost use Rattle.layer_mean.specs.State.{cell_at, numbers_in, rows_at};
ghost use Rattle.group_feed.specs.Showing.{row_meant, state_at};
ghost use Rattle.report_lines.specs.Cells.{cell_front};
ghost use Rattle.report_lines.specs.Lead.{lead};
ghost use Rattle.run_mean.specs.Lines.{cell_line, numbers_text};
ghost use Rattle.run_mean.specs.Text.{row_text, rows_text};
ghost use Rattle.typed_layer.specs.View.{layer_tree};
ghost use Rattle.report_text.specs.Cells.{index_if, no_row, queue_line};

use group_feed::{RowView, Shows, Spot};
use layer_words::Word;
use msg_core::Memory;
use report_lines::{
    Line, NamedStack, push_cell, push_index, push_lead, push_message_row, push_numbers_row,
};
use typed_layer::TypedLayer;

/// A cell of queues, one queue or an array of them: where it is, and what its lines are made from.
#[derive(Clone, Copy)]
pub(crate) struct Queues<'a> {
    pub(crate) stack: &'a NamedStack,
    pub(crate) layer: &'a TypedLayer,
    pub(crate) name: &'a Word,
    pub(crate) is_array: bool,
    pub(crate) spot: Spot,
}

/// Appends the numbers of a cell, with spaces between.
fn push_numbers<S: Shows>(line: &mut Line, group: &S, spot: Spot) -> Result<(), Memory>
    ensures { OnOk result (line.new ≡ line.old
        ++ numbers_text (numbers_in (cell_at (state_at (S.group group.now) spot.id spot.place) spot.cell))) }
{
    for k in 0..group.numbers_count(spot) {
        push_lead(line, b" ", k)?;
        line.number(u64::from(group.number(spot, k)))?;
    }
    Ok(())
}

/// Appends the parts of the line of a cell of numbers.
fn push_cell_numbers<S: Shows>(
    line: &mut Line,
    group: &S,
    layer: &TypedLayer,
    name: &Word,
    spot: Spot,
) -> Result<(), Memory>
    ensures { OnOk result (line.new ≡ line.old
        ++ (cell_front spot.id spot.place (layer_tree layer.now).name name.now ++ codes " "
        ++ numbers_text (numbers_in (cell_at (state_at (S.group group.now) spot.id spot.place) spot.cell)) ++
        codes "\n")) }
{
    push_cell(line, spot.id, spot.place, layer.name.bytes(), name.bytes())?;
    line.text(b" ")?;
    push_numbers(line, group, spot)?;
    line.text(b"\n")
}

/// Builds the line of a cell of numbers.
pub(crate) fn build_numbers<S: Shows>(
    line: &mut Line,
    group: &S,
    layer: &TypedLayer,
    name: &Word,
    spot: Spot,
) -> Result<(), Memory>
    ensures { OnOk result (line.new ≡ line.old
        ++ cell_line spot.id spot.place (layer_tree layer.now) name.now
        (numbers_text (numbers_in (cell_at (state_at (S.group group.now) spot.id spot.place) spot.cell)))) }
{
    push_cell_numbers(line, group, layer, name, spot)
}

/// Appends a row.
fn push_row(line: &mut Line, stack: &NamedStack, row: &RowView<'_>) -> Result<(), Memory>
    ensures { OnOk result (line.new ≡ line.old ++ row_text (stack_tree stack.now) (row_meant row.now)) }
{
    match &row.message {
        Some(message) => {
            push_message_row(line, stack, row.numbers, message.headers, message.body)
        }
        None => push_numbers_row(line, stack, row.numbers),
    }
}

/// Appends row number `k` of a queue, after what separates it from the one before.
fn push_row_at<S: Shows>(
    line: &mut Line,
    group: &S,
    queues: Queues<'_>,
    queue: u32,
    k: u32,
) -> Result<(), Memory>
    requires { k < length
        (rows_at (state_at (S.group group.now) queues.spot.id queues.spot.place) queues.spot.cell queue) }
    ensures { OnOk result (line.new ≡ line.old ++ lead (codes " ") k
        ++ row_text (stack_tree queues.entry.stack.now)
        (slice_index_or (rows_at (state_at (S.group group.now) queues.entry.spot.id queues.entry.spot.place)
        queues.entry.spot.cell queue) k no_row)) }
{
    push_lead(line, b" ", k)?;
    match group.row(queues.spot, queue, k) {
        Some(row) => push_row(line, queues.stack, &row),
        None => unreachable!(),
    }
}

/// Appends the rows of a queue from the front, with spaces between, or `-` for none.
fn push_rows<S: Shows>(
    line: &mut Line,
    group: &S,
    queues: Queues<'_>,
    queue: u32,
) -> Result<(), Memory>
    ensures { OnOk result (line.new ≡ line.old
        ++ rows_text (stack_tree queues.entry.stack.now)
        (rows_at (state_at (S.group group.now) queues.entry.spot.id queues.entry.spot.place)
        queues.entry.spot.cell queue)) }
{
    let count = group.rows(queues.spot, queue);
    if count == 0 {
        return line.text(b"-");
    }
    for k in 0..count {
        push_row_at(line, group, queues, queue, k)?;
    }
    Ok(())
}

/// Appends the index of a queue of an array; a queue that is alone has none.
fn push_queue_index(line: &mut Line, is_array: bool, queue: u32) -> Result<(), Memory>
    ensures { OnOk result (line.new ≡ line.old ++ index_if is_array queue) }
{
    if is_array {
        push_index(line, queue)
    } else {
        Ok(())
    }
}

/// Appends the parts of the line of a queue.
fn push_queue<S: Shows>(
    line: &mut Line,
    group: &S,
    queues: Queues<'_>,
    queue: u32,
) -> Result<(), Memory>
    ensures { OnOk result (line.new ≡ line.old
        ++ (cell_front queues.entry.spot.id queues.entry.spot.place (layer_tree queues.entry.layer.now).name
        queues.entry.name.now ++ index_if queues.entry.is_array queue
        ++ codes " " ++ rows_text (stack_tree queues.entry.stack.now)
        (rows_at (state_at (S.group group.now) queues.entry.spot.id queues.entry.spot.place)
        queues.entry.spot.cell queue)
        ++ codes "\n")) }
{
    let layer = queues.layer.name.bytes();
    let spot = queues.spot;
    push_cell(line, spot.id, spot.place, layer, queues.name.bytes())?;
    push_queue_index(line, queues.is_array, queue)?;
    line.text(b" ")?;
    push_rows(line, group, queues, queue)?;
    line.text(b"\n")
}

/// Builds the line of a queue: the only one of a cell, or one of its array.
pub(crate) fn build_queue<S: Shows>(
    line: &mut Line,
    group: &S,
    queues: Queues<'_>,
    queue: u32,
) -> Result<(), Memory>
    ensures { OnOk result (line.new ≡ line.old
        ++ queue_line (stack_tree queues.entry.stack.now) queues.entry.spot.id queues.entry.spot.place
        (layer_tree queues.entry.layer.now) queues.entry.is_array queues.entry.name.now (
          queue,
          rows_at (state_at (S.group group.now) queues.entry.spot.id queues.entry.spot.place)
              queues.entry.spot.cell queue,
        )) }
{
    push_queue(line, group, queues, queue)
}

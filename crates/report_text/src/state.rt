//! The lines of a member that is shown.

ghost use Rattle.std.specs.Prelude.{◌∷◌, [], codes};
ghost use Rattle.stack_judge.specs.Answer.{stack_tree};
ghost use Rattle.layer_mean.specs.State.{cell_at, rows_at};
ghost use Rattle.group_feed.specs.Showing.{shown_in, state_at};
ghost use Rattle.run_mean.specs.Lines as report;
ghost use Rattle.run_mean.specs.Report as whole;
ghost use Rattle.outside.specs.Lines.{Wrote};
ghost use Rattle.outside.specs.Tells.{tells_of};
ghost use Rattle.typed_layer.specs.View.{cell_tree, layer_tree};
ghost use Rattle.report_text.specs.Cells.{cells_shown, layers_shown, numbers_lines, one_queue, queue_lines};

use crate::cells::{Queues, build_numbers, build_queue};
use crate::pen::Pen;
use group_feed::{Shows, Spot};
use layer_words::Word;
use msg_core::View;
use outside::{Sink, SinkError, put_line};
use report_lines::{NamedStack, state_line, state_out_line};
use typed_layer::{Cell, Form, TypedLayer};

/// The most cells of a layer that numbers of eight bits name.
const NUMBERED_CELLS: usize = 256;

/// A layer of a member that is shown: where it is, and the stack by which its headers are named.
#[derive(Clone, Copy)]
struct ShownLayer<'a> {
    stack: &'a NamedStack,
    layer: &'a TypedLayer,
    id: u8,
    place: u8,
}

/// A cell of a layer of a member that is shown: where it is, and the stack by which its headers are named.
#[derive(Clone, Copy)]
struct ShownCell<'a> {
    stack: &'a NamedStack,
    layer: &'a TypedLayer,
    cell: &'a Cell,
    spot: Spot,
}

/// Puts the line of a cell of numbers.
fn write_numbers<S: Shows, O: Sink>(
    pen: &mut Pen,
    group: &S,
    shown: ShownCell<'_>,
    out: &mut O,
) -> Result<(), SinkError>
    ensures { Wrote (numbers_lines shown.entry.spot.id shown.entry.spot.place (layer_tree shown.entry.layer.now)
        shown.entry.cell.now.name
        (cell_at (state_at (S.group group.now) shown.entry.spot.id shown.entry.spot.place) shown.entry.spot.cell))
        (tells_of O.Sink out.old) (tells_of O.Sink out.new) result }
{
    pen.line.clear();
    build_numbers(
        &mut pen.line,
        group,
        shown.layer,
        &shown.cell.name,
        shown.spot,
    )?;
    put_line(pen.line.slice(), out)
}

/// Puts the line of a queue.
fn write_queue<S: Shows, O: Sink>(
    pen: &mut Pen,
    group: &S,
    queues: Queues<'_>,
    queue: u32,
    out: &mut O,
) -> Result<(), SinkError>
    ensures { Wrote (one_queue (stack_tree queues.entry.stack.now) queues.entry.spot.id queues.entry.spot.place
        (layer_tree queues.entry.layer.now) queues.entry.is_array queues.entry.name.now (
          queue,
          rows_at (state_at (S.group group.now) queues.entry.spot.id queues.entry.spot.place)
              queues.entry.spot.cell queue,
        ))
        (tells_of O.Sink out.old) (tells_of O.Sink out.new) result }
{
    pen.line.clear();
    build_queue(&mut pen.line, group, queues, queue)?;
    put_line(pen.line.slice(), out)
}

/// Puts the lines of the queues of a cell.
fn write_queues<S: Shows, O: Sink>(
    pen: &mut Pen,
    group: &S,
    queues: Queues<'_>,
    out: &mut O,
) -> Result<(), SinkError>
    ensures { Wrote (queue_lines (stack_tree queues.entry.stack.now) queues.entry.spot.id queues.entry.spot.place
        (layer_tree queues.entry.layer.now) queues.entry.is_array queues.entry.name.now
        (cell_at (state_at (S.group group.now) queues.entry.spot.id queues.entry.spot.place) queues.entry.spot.cell))
        (tells_of O.Sink out.old) (tells_of O.Sink out.new) result }
{
    for queue in 0..group.queues_count(queues.spot) {
        write_queue(pen, group, queues, queue, out)?;
    }
    Ok(())
}

/// Puts the lines of a cell.
fn write_cell<S: Shows, O: Sink>(
    pen: &mut Pen,
    group: &S,
    shown: ShownCell<'_>,
    out: &mut O,
) -> Result<(), SinkError>
    ensures { Wrote (whole.cell_lines (stack_tree shown.entry.stack.now) shown.entry.spot.id shown.entry.spot.place
        (layer_tree shown.entry.layer.now)
        (state_at (S.group group.now) shown.entry.spot.id shown.entry.spot.place)
        (shown.entry.spot.cell, cell_tree shown.entry.cell.now))
        (tells_of O.Sink out.old) (tells_of O.Sink out.new) result }
{
    match &shown.cell.form {
        Form::Numbers {
            shape: _,
            initial: _,
        } => { write_numbers(pen, group, shown, out) }
        Form::Queue {
            capacity: _,
            items: _,
        } => {
            let queues = Queues {
                stack: shown.stack,
                layer: shown.layer,
                name: &shown.cell.name,
                is_array: false,
                spot: shown.spot,
            };
            write_queues(pen, group, queues, out)
        }
        Form::Queues {
            capacity: _,
            items: _,
        } => {
            let queues = Queues {
                stack: shown.stack,
                layer: shown.layer,
                name: &shown.cell.name,
                is_array: true,
                spot: shown.spot,
            };
            write_queues(pen, group, queues, out)
        }
    }
}

/// Puts the lines of a layer's cells. Cells have numbers of eight bits: a layer with more than 256 of them, which no
/// file declares, is answered like want of memory.
fn write_layer<S: Shows, O: Sink>(
    pen: &mut Pen,
    group: &S,
    shown: ShownLayer<'_>,
    out: &mut O,
) -> Result<(), SinkError>
    ensures { Wrote (cells_shown (stack_tree shown.entry.stack.now) shown.entry.id shown.entry.place
        (layer_tree shown.entry.layer.now)
        (state_at (S.group group.now) shown.entry.id shown.entry.place))
        (tells_of O.Sink out.old) (tells_of O.Sink out.new) result }
{
    let count = shown.layer.cells.len();
    if count > NUMBERED_CELLS {
        return Err(SinkError::Memory);
    }
    for number in 0..count {
        let item = &shown.layer.cells[number];
        let cell = ShownCell {
            stack: shown.stack,
            layer: shown.layer,
            cell: item,
            spot: Spot {
                id: shown.id,
                place: shown.place,
                cell: number as u8,
            },
        };
        write_cell(pen, group, cell, out)?;
    }
    Ok(())
}

/// Puts the lines of all layers' cells, the lowest layer's first.
fn write_layers<S: Shows, O: Sink>(
    pen: &mut Pen,
    stack: &NamedStack,
    group: &S,
    id: u8,
    out: &mut O,
) -> Result<(), SinkError>
    ensures { Wrote (layers_shown (stack_tree stack.now) id (shown_in (S.group group.now) id))
        (tells_of O.Sink out.old) (tells_of O.Sink out.new) result }
{
    for place in 0..stack.places() {
        let shown = ShownLayer {
            stack,
            layer: stack.layer(place),
            id,
            place,
        };
        write_layer(pen, group, shown, out)?;
    }
    Ok(())
}

/// Puts the line of the view that a member is in.
fn write_view<O: Sink>(pen: &mut Pen, id: u8, view: View, out: &mut O) -> Result<(), SinkError>
    ensures { Wrote (report.view_line (codes "state") id view ∷ [])
        (tells_of O.Sink out.old) (tells_of O.Sink out.new) result }
{
    pen.line.clear();
    state_line(&mut pen.line, id, view)?;
    put_line(pen.line.slice(), out)
}

/// Puts the line of a member that is in no view.
fn write_out<O: Sink>(pen: &mut Pen, id: u8, out: &mut O) -> Result<(), SinkError>
    ensures { Wrote (report.state_out_line id ∷ [])
        (tells_of O.Sink out.old) (tells_of O.Sink out.new) result }
{
    pen.line.clear();
    state_out_line(&mut pen.line, id)?;
    put_line(pen.line.slice(), out)
}

/// Puts the lines of a member that is shown: where it is, and what its layers' cells hold.
pub(crate) fn write_member<S: Shows, O: Sink>(
    pen: &mut Pen,
    stack: &NamedStack,
    id: u8,
    group: &S,
    out: &mut O,
) -> Result<(), SinkError>
    ensures { Wrote (whole.member_lines (stack_tree stack.now) id (shown_in (S.group group.now) id))
        (tells_of O.Sink out.old) (tells_of O.Sink out.new) result }
{
    match group.view(id) {
        Some(view) => {
            write_view(pen, id, view, out)?;
            write_layers(pen, stack, group, id, out)
        }
        None => write_out(pen, id, out),
    }
}

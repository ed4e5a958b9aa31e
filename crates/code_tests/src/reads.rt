//! Numbers that are made of others, and of what the layers keep.

ghost use Rattle.std.specs.Prelude.{◌≡◌, ◌≤◌, List, length, map, slice_index_or, None, []};
ghost use Rattle.std.specs.List.{AllByRecursion};
ghost use Rattle.slot_pool.specs.Held.{Held};
ghost use Rattle.msg_core.specs.Chain.{plain};
ghost use Rattle.msg_core.specs.Parts.{longest_body};
ghost use Rattle.msg_core.specs.View.{most_members};
ghost use Rattle.layer_mean.specs.State.{flat_index, number_at, row_at, rows_at};
ghost use Rattle.layer_mean.specs.Tree.{part};
ghost use Rattle.layer_mean.specs.Value.{message_in, number_in};
ghost use Rattle.trace_mean.specs.Worth.{state_of};
ghost use Rattle.guard_mean.specs.Machine.{cut_bytes, join_bytes, reading_of, source_at, tail_bytes};
ghost use Rattle.pool_message.specs.Seen.{Lies, RowLies, content_seen};
ghost use Rattle.live_layer.specs.Layer.{IsInOrder, state_in};
ghost use Rattle.code_make.specs.Trees.{reading_tree, source_tree};
ghost use Rattle.code_tests.specs.Registers.{ValuesLie, input_of, kept_in, row_kept};

use crate::given::Given;
use crate::numbers::operand;
use crate::values::Values;
use code_make::{Reading, Source};
use live_layer::FileLayer;
use msg_core::LONGEST_BODY;
use pool_message::{Messages, PoolRow};
use slot_pool::Pool;
use typed_layer::{applied, applied_to};

/// A number of a cell of the layer at a place.
#[inline]
pub fn element(layers: &[FileLayer], place: u8, cell: u8, index: u32) -> u32
    ensures { (p : List Held) → result ≡ number_at (state_of (map (state_in p) layers.now) place) cell index }
{
    match layers.get(place as usize) {
        Some(layer) => layer.number(cell, index),
        None => 0,
    }
}

/// The flat index of a row and a column of a square cell of n members.
#[inline]
pub fn flat_index(count: u32, row: u32, column: u32) -> u32
    requires { count ≤ most_members }
    ensures { result ≡ flat_index count row column }
{
    if row < count && column < count {
        row * count + column
    } else {
        count * count
    }
}

/// How many rows a queue of the layer at a place has.
#[inline]
pub(crate) fn rows(layers: &[FileLayer], place: u8, cell: u8, index: u32) -> u32
    ensures { (p : List Held) → result ≡ length (rows_at (state_of (map (state_in p) layers.now) place) cell index) }
{
    match layers.get(place as usize) {
        Some(layer) => layer.rows(cell, index),
        None => 0,
    }
}

/// A number of a row of a queue of the layer at a place.
#[inline]
fn item(layers: &[FileLayer], place: u8, cell: u8, index: u32, row: u32, number: u8) -> u32
    ensures { (p : List Held) →
        result ≡ number_in number (row_at (state_of (map (state_in p) layers.now) place) cell index row) }
{
    match layers.get(place as usize) {
        Some(layer) => match layer.row(cell, index, row) {
            Some(row) => row.numbers.at(u32::from(number)),
            None => 0,
        },
        None => 0,
    }
}

/// How many bytes the message of a row has, if it has one.
#[inline]
fn row_size(row: &PoolRow, _pool: &Pool) -> u32
    requires { RowLies _pool.now row.now }
    ensures { result ≡ length (message_in part (row_kept _pool.now row.now)).body }
{
    match &row.message {
        Some(message) => message.len(),
        None => 0,
    }
}

/// How many bytes the message of a row of a queue of the layer at a place has.
#[inline]
fn held_size(layers: &[FileLayer], place: u8, cell: u8, index: u32, row: u32, pool: &Pool) -> u32
    requires { AllByRecursion (IsInOrder pool.now) layers.now }
    ensures { result ≡ length
        (message_in part (row_at (state_of (map (state_in pool.now) layers.now) place) cell index row)).body }
{
    match layers.get(place as usize) {
        Some(layer) => match layer.row(cell, index, row) {
            Some(row) => row_size(row, pool),
            None => 0,
        },
        None => 0,
    }
}

/// How many bytes the message of a taken row has.
#[inline]
fn taken_size(rows: &[PoolRow], k: u32, pool: &Pool) -> u32
    requires { AllByRecursion (RowLies pool.now) rows.now }
    ensures { result ≡ length (message_in part (slice_index_or (map (row_kept pool.now) rows.now) k None)).body }
{
    match rows.get(k as usize) {
        Some(row) => row_size(row, pool),
        None => 0,
    }
}

/// The number of bytes of a message that was made.
#[inline]
fn message_size(messages: &Messages, k: u32, _pool: &Pool) -> u32
    requires { AllByRecursion (Lies _pool.now) messages.now.items }
    ensures { result ≡ length (slice_index_or (map (content_seen _pool.now) messages.now.items) k (plain [])).body }
{
    match messages.get(k as usize) {
        Some(message) => message.len(),
        None => 0,
    }
}

/// How many bytes a message has.
#[inline]
fn size(given: &Given<'_>, values: &Values, pool: &Pool, source: Source) -> u32
    requires lie { ValuesLie pool.now values.now }
    requires body { length given.now.body.now ≤ longest_body }
    ensures { result ≡ length (source_at (input_of given.now) (kept_in pool.now values.now) (source_tree source)).body }
{
    match source {
        Source::Body => given.body.len() as u32,
        Source::Nothing => 0,
        Source::Message(k) => message_size(&values.messages, k, pool),
    }
}

/// The number of bytes of a part that is cut out of `bytes` bytes.
#[inline]
fn cut_size(bytes: u32, from: u32, length: u32) -> u32
    ensures { result ≡ cut_bytes bytes from length }
{
    length.min(bytes.saturating_sub(from))
}

/// How many bytes come after a place.
#[inline]
fn tail_size(bytes: u32, from: u32) -> u32
    ensures { result ≡ tail_bytes bytes from }
{
    bytes.saturating_sub(from)
}

/// How many bytes two messages have in one.
#[inline]
fn join_size(front: u32, bytes: u32) -> u32
    ensures { result ≡ join_bytes front bytes }
{
    match front.checked_add(bytes) {
        Some(both) if both <= LONGEST_BODY => both,
        _ => bytes,
    }
}

/// Makes a number. What isn't there is 0.
#[inline(always)]
pub fn reading(
    given: &Given<'_>,
    values: &Values,
    layers: &[FileLayer],
    pool: &Pool,
    reading: &Reading,
) -> u32
    requires order { AllByRecursion (IsInOrder pool.now) layers.now }
    requires lie { ValuesLie pool.now values.now }
    requires members { given.now.count ≤ most_members }
    requires body { length given.now.body.now ≤ longest_body }
    ensures { result ≡ reading_of (input_of given.now) (kept_in pool.now values.now)
        (map (state_in pool.now) layers.now) (reading_tree reading.now) }
{
    match reading {
        Reading::Element { place, cell, index } => {
            element(layers, *place, *cell, operand(given, values, *index))
        }
        Reading::Square {
            place,
            cell,
            row,
            column,
        } => {
            let row = operand(given, values, *row);
            let column = operand(given, values, *column);
            element(layers, *place, *cell, flat_index(given.count, row, column))
        }
        Reading::Rows { place, cell, index } => {
            rows(layers, *place, *cell, operand(given, values, *index))
        }
        Reading::Item {
            place,
            cell,
            number,
            index,
            row,
        } => {
            let index = operand(given, values, *index);
            let row = operand(given, values, *row);
            item(layers, *place, *cell, index, row, *number)
        }
        Reading::Size(source) => size(given, values, pool, *source),
        Reading::TakenSize(row) => taken_size(values.rows.as_slice(), *row, pool),
        Reading::HeldSize {
            place,
            cell,
            index,
            row,
        } => {
            let index = operand(given, values, *index);
            let row = operand(given, values, *row);
            held_size(layers, *place, *cell, index, row, pool)
        }
        Reading::CutSize {
            bytes,
            from,
            length,
        } => cut_size(
            operand(given, values, *bytes),
            operand(given, values, *from),
            operand(given, values, *length),
        ),
        Reading::TailSize { bytes, from } => {
            tail_size(
                operand(given, values, *bytes),
                operand(given, values, *from),
            )
        }
        Reading::JoinSize { front, bytes } => {
            join_size(
                operand(given, values, *front),
                operand(given, values, *bytes),
            )
        }
        Reading::Binary {
            operator,
            left,
            right,
        } => {
            applied(
                *operator,
                operand(given, values, *left),
                operand(given, values, *right),
            )
        }
        Reading::Apply {
            function,
            operand: named,
        } => applied_to(*function, operand(given, values, *named)),
        Reading::Pick {
            condition,
            first,
            second,
        } => {
            if operand(given, values, *condition) != 0 {
                operand(given, values, *first)
            } else {
                operand(given, values, *second)
            }
        }
    }
}

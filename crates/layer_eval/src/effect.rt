//! What statements do.

ghost use Rattle.std.specs.Prelude.{◌≡◌, true, [], map, Option, OnOk};
ghost use Rattle.msg_core.specs.Chain.{Content as Bytes};
ghost use Rattle.layer_mean.specs.Event.{event_of};
ghost use Rattle.layer_mean.specs.State.{has_room, rows_at};
ghost use Rattle.layer_mean.specs.Effect.{row_of, header_of, emitted_event};
ghost use Rattle.typed_layer.specs.View.{expression_tree, row_tree, content_tree, emission_tree, trees, statement_tree};
ghost use Rattle.typed_layer.specs.View.{block_tree};
ghost use Rattle.layer_desk.specs.Laid.{bound, assigned, assigned_square, queued, sends, left};
ghost use Rattle.layer_mean.specs.Envelope.{event_in};
ghost use Rattle.layer_desk.specs.Need.{push_need, emission_need, statement_need, block_need};
ghost use Rattle.layer_desk.specs.Spent.{Spent};
ghost use Rattle.layer_eval.specs.Worth.{number_of, numbers_of, message_sent};
ghost use Rattle.layer_eval.specs.Did.{Did, FindsNothing, statement_does, block_does};
ghost use Rattle.layer_eval.specs.Owed.{sets_number, number_set};

use crate::message::make;
use crate::predicted::Predicted;
use crate::value::{fields, fill, nth_number, number};
use layer_desk::{Desk, NoRoom, Queue, Sending, Square, Start};
use layer_mean::Envelope;
use layer_words::Kind;
use msg_core::{Fields, Header};
use slot_pool::Pool;
use typed_layer::{
    Content, Emission, Expression, MessageExpression, RowExpression, Statement, StatementBlock,
};

/// Runs the statements of a block in a statement. Often there are none: these cost no call. Otherwise there is mostly
/// one: this costs no loop.
#[cycle(effect)]
#[inline(always)]
fn run_block<K: Start, D: Desk>(
    place: u8,
    block: &StatementBlock,
    desk: &mut D,
    pool: &mut Pool,
    predicted: &mut Predicted,
) -> Result<(), NoRoom>
    requires { D.ready K.begun pool.old desk.old }
    ensures ready { D.ready K.begun pool.new desk.new }
    ensures did { OnOk result (Did (block_does place (block_tree block.now) (D.shown pool.old desk.old))
        (D.shown pool.old desk.old) (D.shown pool.new desk.new) predicted.old predicted.new) }
    ensures spent { Spent (D.free pool.old desk.old) (D.free pool.new desk.new)
        (block_need K.begun.layout (block_tree block.now)) result }
{
    match block.statements.as_slice() {
        [] => Ok(()),
        [only] => run_single::<K, D>(place, only, desk, pool, predicted),
        statements => run_statements::<K, D>(place, statements, desk, pool, predicted),
    }
}

/// Runs the only statement of a block in a statement. Turns of a loop mostly look for a row in vain: these cost no
/// call.
#[cycle(effect)]
#[inline(always)]
fn run_single<K: Start, D: Desk>(
    place: u8,
    statement: &Statement,
    desk: &mut D,
    pool: &mut Pool,
    predicted: &mut Predicted,
) -> Result<(), NoRoom>
    requires { D.ready K.begun pool.old desk.old }
    ensures ready { D.ready K.begun pool.new desk.new }
    ensures did { OnOk result (Did (statement_does place (statement_tree statement.now) (D.shown pool.old desk.old))
        (D.shown pool.old desk.old) (D.shown pool.new desk.new) predicted.old predicted.new) }
    ensures spent { Spent (D.free pool.old desk.old) (D.free pool.new desk.new)
        (statement_need K.begun.layout (statement_tree statement.now)) result }
{
    if finds_nothing::<K, D>(statement, desk, pool) {
        *predicted = Predicted::unusual();
        return Ok(());
    }
    run_statement::<K, D>(place, statement, desk, pool, predicted)
}

/// Runs statements in order.
#[cycle(effect)]
#[inline(never)]
fn run_statements<K: Start, D: Desk>(
    place: u8,
    statements: &[Statement],
    desk: &mut D,
    pool: &mut Pool,
    predicted: &mut Predicted,
) -> Result<(), NoRoom>
    requires { D.ready K.begun pool.old desk.old }
    ensures ready { D.ready K.begun pool.new desk.new }
    ensures did { OnOk result
        (Did (block_does place (trees (map statement_tree statements.now)) (D.shown pool.old desk.old))
        (D.shown pool.old desk.old) (D.shown pool.new desk.new) predicted.old predicted.new) }
    ensures spent { Spent (D.free pool.old desk.old) (D.free pool.new desk.new)
        (block_need K.begun.layout (trees (map statement_tree statements.now))) result }
{
    for statement in statements {
        run_statement::<K, D>(place, statement, desk, pool, predicted)?;
    }
    Ok(())
}

/// Whether a statement takes a row of a queue that has none, and does nothing then. Where that takes more than a look
/// at the queue, it isn't said.
#[inline(always)]
fn finds_nothing<K: Start, D: Desk>(statement: &Statement, desk: &D, pool: &Pool) -> bool
    requires { D.ready K.begun pool.now desk.now }
    ensures { FindsNothing result (statement_tree statement.now) (D.shown pool.now desk.now) }
{
    match statement {
        Statement::Take {
            cell,
            index,
            taken: _,
            block: _,
            otherwise,
        } => {
            if otherwise.statements.is_empty() {
                if has_no_row::<K, D>(*cell, index, desk, pool) {
                    return true;
                }
            }
            false
        }
        _ => false,
    }
}

/// Whether a queue at a number or at a local has no row. Where its index is something else, it isn't said.
#[inline(always)]
fn has_no_row<K: Start, D: Desk>(cell: u8, index: &Expression, desk: &D, pool: &Pool) -> bool
    requires { D.ready K.begun pool.now desk.now }
    ensures { result ≡ true →
        rows_at (D.shown pool.now desk.now).state cell
        (number_of (expression_tree index.now) (D.shown pool.now desk.now)) ≡ [] }
{
    if !matches!(index, Expression::Number(_) | Expression::Local(_)) {
        return false;
    }
    let index = number::<K, D>(index, desk, pool);
    desk.rows::<K>(pool, cell, index) == 0
}

/// Runs a statement.
#[cycle(effect)]
#[inline(never)]
#[tactic(auto, using(crate::proofs::Sets::set_did))]
pub fn run_statement<K: Start, D: Desk>(
    place: u8,
    statement: &Statement,
    desk: &mut D,
    pool: &mut Pool,
    predicted: &mut Predicted,
) -> Result<(), NoRoom>
    requires { D.ready K.begun pool.old desk.old }
    ensures ready { D.ready K.begun pool.new desk.new }
    ensures did { OnOk result (Did (statement_does place (statement_tree statement.now) (D.shown pool.old desk.old))
        (D.shown pool.old desk.old) (D.shown pool.new desk.new) predicted.old predicted.new) }
    ensures spent { Spent (D.free pool.old desk.old) (D.free pool.new desk.new)
        (statement_need K.begun.layout (statement_tree statement.now)) result }
{
    match statement {
        Statement::Push {
            cell,
            index,
            capacity,
            row,
            otherwise,
        } => {
            let index = number::<K, D>(index, desk, pool);
            let queue = Queue {
                cell: *cell,
                index,
                capacity: *capacity,
            };
            if desk.has_room::<K>(pool, queue) {
                push::<K, D>(queue, row, desk, pool)
            } else {
                run_block::<K, D>(place, otherwise, desk, pool, predicted)?;
                *predicted = Predicted::unusual();
                Ok(())
            }
        }
        Statement::Take {
            cell,
            index,
            taken,
            block,
            otherwise,
        } => {
            let index = number::<K, D>(index, desk, pool);
            if desk.take::<K>(pool, *cell, index, taken)? {
                run_block::<K, D>(place, block, desk, pool, predicted)
            } else {
                run_block::<K, D>(place, otherwise, desk, pool, predicted)?;
                *predicted = Predicted::unusual();
                Ok(())
            }
        }
        Statement::Branch {
            likely,
            condition,
            block,
            otherwise,
        } => {
            if number::<K, D>(condition, desk, pool) != 0 {
                run_block::<K, D>(place, block, desk, pool, predicted)?;
                predicted.choose(true, *likely);
                Ok(())
            } else {
                run_block::<K, D>(place, otherwise, desk, pool, predicted)?;
                predicted.choose(false, *likely);
                Ok(())
            }
        }
        Statement::Each {
            slot,
            below,
            most,
            block,
        } => {
            let turns = number::<K, D>(below, desk, pool).min(u32::from(*most));
            for turn in 0..turns {
                desk.bind::<K>(pool, *slot, turn);
                run_block::<K, D>(place, block, desk, pool, predicted)?;
            }
            *predicted = Predicted::unusual();
            Ok(())
        }
        Statement::Emit(emission) => { emit::<K, D>(place, emission, desk, pool) }
        Statement::Bind { .. }
        | Statement::Set { .. }
        | Statement::SetElement { .. }
        | Statement::SetSquare { .. } => {
            let _sets = set_number::<K, D>(statement, desk, pool);
            Ok(())
        }
    }
}

/// Runs a statement if it sets a number and does nothing else, and says whether it does. One that does keeps less over
/// its calls than others do.
#[inline(always)]
pub fn set_number<K: Start, D: Desk>(statement: &Statement, desk: &mut D, pool: &Pool) -> bool
    requires { D.ready K.begun pool.now desk.old }
    ensures ready { D.ready K.begun pool.now desk.new }
    ensures sets { result ≡ sets_number (statement_tree statement.now) }
    ensures shown { D.shown pool.now desk.new ≡ number_set (statement_tree statement.now) (D.shown pool.now desk.old) }
    ensures free { D.free pool.now desk.new ≡ D.free pool.now desk.old }
{
    match statement {
        Statement::Bind { slot, value } => {
            set_local::<K, D>(*slot, value, desk, pool);
            true
        }
        Statement::Set { cell, value } => {
            set_scalar::<K, D>(*cell, value, desk, pool);
            true
        }
        Statement::SetElement { cell, index, value } => {
            set_element::<K, D>(*cell, index, value, desk, pool);
            true
        }
        Statement::SetSquare {
            cell,
            row,
            column,
            value,
        } => {
            set_square::<K, D>(*cell, row, column, value, desk, pool);
            true
        }
        _ => false,
    }
}

/// Sets a number of the scope.
#[inline(never)]
fn set_local<K: Start, D: Desk>(slot: u8, value: &Expression, desk: &mut D, pool: &Pool)
    requires { D.ready K.begun pool.now desk.old }
    ensures ready { D.ready K.begun pool.now desk.new }
    ensures shown { D.shown pool.now desk.new ≡
        bound slot (number_of (expression_tree value.now) (D.shown pool.now desk.old)) (D.shown pool.now desk.old) }
    ensures free { D.free pool.now desk.new ≡ D.free pool.now desk.old }
{
    let value = number::<K, D>(value, desk, pool);
    desk.bind::<K>(pool, slot, value);
}

/// Sets the number of a cell of one number.
#[inline(never)]
fn set_scalar<K: Start, D: Desk>(cell: u8, value: &Expression, desk: &mut D, pool: &Pool)
    requires { D.ready K.begun pool.now desk.old }
    ensures ready { D.ready K.begun pool.now desk.new }
    ensures shown { D.shown pool.now desk.new ≡
        assigned cell 0 (number_of (expression_tree value.now) (D.shown pool.now desk.old))
        (D.shown pool.now desk.old) }
    ensures free { D.free pool.now desk.new ≡ D.free pool.now desk.old }
{
    let value = number::<K, D>(value, desk, pool);
    desk.assign::<K>(pool, cell, 0, value);
}

/// Sets a number of an array.
#[inline(never)]
fn set_element<K: Start, D: Desk>(
    cell: u8,
    index: &Expression,
    value: &Expression,
    desk: &mut D,
    pool: &Pool,
)
    requires { D.ready K.begun pool.now desk.old }
    ensures ready { D.ready K.begun pool.now desk.new }
    ensures shown { D.shown pool.now desk.new ≡ assigned cell
        (number_of (expression_tree index.now) (D.shown pool.now desk.old))
        (number_of (expression_tree value.now) (D.shown pool.now desk.old)) (D.shown pool.now desk.old) }
    ensures free { D.free pool.now desk.new ≡ D.free pool.now desk.old }
{
    let index = number::<K, D>(index, desk, pool);
    let value = number::<K, D>(value, desk, pool);
    desk.assign::<K>(pool, cell, index, value);
}

/// Sets a number of a square cell.
#[inline(never)]
fn set_square<K: Start, D: Desk>(
    cell: u8,
    row: &Expression,
    column: &Expression,
    value: &Expression,
    desk: &mut D,
    pool: &Pool,
)
    requires { D.ready K.begun pool.now desk.old }
    ensures ready { D.ready K.begun pool.now desk.new }
    ensures shown { D.shown pool.now desk.new ≡ assigned_square cell
        (number_of (expression_tree row.now) (D.shown pool.now desk.old))
        (number_of (expression_tree column.now) (D.shown pool.now desk.old))
        (number_of (expression_tree value.now) (D.shown pool.now desk.old)) (D.shown pool.now desk.old) }
    ensures free { D.free pool.now desk.new ≡ D.free pool.now desk.old }
{
    let row = number::<K, D>(row, desk, pool);
    let column = number::<K, D>(column, desk, pool);
    let value = number::<K, D>(value, desk, pool);
    desk.assign_square::<K>(pool, Square { cell, row, column }, value);
}

/// Puts a row at the back of a queue that has room for it.
#[inline(never)]
fn push<K: Start, D: Desk>(
    queue: Queue,
    row: &RowExpression,
    desk: &mut D,
    pool: &mut Pool,
) -> Result<(), NoRoom>
    requires ready { D.ready K.begun pool.old desk.old }
    requires room { has_room (D.shown pool.old desk.old).state queue.cell queue.index queue.capacity ≡ true }
    ensures ready { D.ready K.begun pool.new desk.new }
    ensures shown { OnOk result (D.shown pool.new desk.new ≡ queued queue.cell queue.index
        (row_of (row_tree row.now) (D.shown pool.old desk.old).state (D.shown pool.old desk.old).scope)
        (D.shown pool.old desk.old)) }
    ensures spent { Spent (D.free pool.old desk.old) (D.free pool.new desk.new)
        (push_need K.begun.layout queue.cell queue.capacity (row_tree row.now)) result }
{
    let numbers = fields::<K, D>(&row.numbers, desk, pool);
    match &row.message {
        None => desk.push::<K>(pool, queue, numbers),
        Some(message) => {
            make::<K, D>(message, desk, pool)?;
            desk.push_first::<K>(pool, queue, numbers)
        }
    }
}

/// Sends an event, whose arguments are evaluated at once.
#[inline(always)]
fn emit<K: Start, D: Desk>(
    place: u8,
    emission: &Emission,
    desk: &mut D,
    pool: &mut Pool,
) -> Result<(), NoRoom>
    requires { D.ready K.begun pool.old desk.old }
    ensures ready { D.ready K.begun pool.new desk.new }
    ensures shown { OnOk result (D.shown pool.new desk.new ≡ sends emission.now.direction
        (emitted_event place (emission_tree emission.now) (D.shown pool.old desk.old).state
        (D.shown pool.old desk.old).scope)
        (D.shown pool.old desk.old)) }
    ensures spent { Spent (D.free pool.old desk.old) (D.free pool.new desk.new)
        (emission_need (emission_tree emission.now)) result }
{
    let envelope = envelope::<K, D>(emission, desk, pool);
    send::<K, D>(place, emission, envelope, desk, pool)
}

/// Sends an event, and lets go what the visit leaves; with that a message of the scope goes on.
pub fn emit_last<K: Start, D: Desk>(
    place: u8,
    emission: &Emission,
    desk: &mut D,
    pool: &mut Pool,
) -> Result<(), NoRoom>
    requires { D.ready K.begun pool.old desk.old }
    ensures ready { D.ready K.begun pool.new desk.new }
    ensures shown { OnOk result (D.shown pool.new desk.new ≡ left (sends emission.now.direction
        (emitted_event place (emission_tree emission.now) (D.shown pool.old desk.old).state
        (D.shown pool.old desk.old).scope)
        (D.shown pool.old desk.old))) }
    ensures spent { Spent (D.free pool.old desk.old) (D.free pool.new desk.new)
        (emission_need (emission_tree emission.now)) result }
{
    let envelope = envelope::<K, D>(emission, desk, pool);
    send_last::<K, D>(place, emission, envelope, desk, pool)
}

/// Sends an event with an emission's message, and lets go what the visit leaves.
#[inline(always)]
fn send_last<K: Start, D: Desk>(
    place: u8,
    emission: &Emission,
    envelope: Envelope,
    desk: &mut D,
    pool: &mut Pool,
) -> Result<(), NoRoom>
    requires { D.ready K.begun pool.old desk.old }
    ensures ready { D.ready K.begun pool.new desk.new }
    ensures shown { OnOk result (D.shown pool.new desk.new ≡ left (sends emission.now.direction
        (event_in envelope (message_sent place (emission_tree emission.now) (D.shown pool.old desk.old)))
        (D.shown pool.old desk.old))) }
    ensures spent { Spent (D.free pool.old desk.old) (D.free pool.new desk.new)
        (emission_need (emission_tree emission.now)) result }
{
    if let Some(content) = &emission.content {
        if let MessageExpression::Local(slot) = &content.message {
            let mut sending = Sending {
                direction: emission.direction,
                envelope,
                header: no_header(),
            };
            write_header::<K, D>(place, content, desk, pool, &mut sending.header);
            return desk.send_local_and_leave::<K>(pool, &sending, *slot);
        }
    }
    send::<K, D>(place, emission, envelope, desk, pool)?;
    desk.leave::<K>(pool);
    Ok(())
}

/// Sends an event with an emission's message.
#[inline(always)]
fn send<K: Start, D: Desk>(
    place: u8,
    emission: &Emission,
    envelope: Envelope,
    desk: &mut D,
    pool: &mut Pool,
) -> Result<(), NoRoom>
    requires { D.ready K.begun pool.old desk.old }
    ensures ready { D.ready K.begun pool.new desk.new }
    ensures shown { OnOk result (D.shown pool.new desk.new ≡ sends emission.now.direction
        (event_in envelope (message_sent place (emission_tree emission.now) (D.shown pool.old desk.old)))
        (D.shown pool.old desk.old)) }
    ensures spent { Spent (D.free pool.old desk.old) (D.free pool.new desk.new)
        (emission_need (emission_tree emission.now)) result }
{
    match &emission.content {
        None => desk.send::<K>(pool, emission.direction, envelope),
        Some(content) => {
            let mut sending = Sending {
                direction: emission.direction,
                envelope,
                header: no_header(),
            };
            write_header::<K, D>(place, content, desk, pool, &mut sending.header);
            if let MessageExpression::Local(slot) = &content.message {
                return desk.send_local::<K>(pool, &sending, *slot);
            }
            make::<K, D>(&content.message, desk, pool)?;
            desk.send_first::<K>(pool, &sending)
        }
    }
}

/// A header becomes that of an emission's message, where it lies.
#[inline(always)]
pub fn write_header<K: Start, D: Desk>(
    place: u8,
    content: &Content,
    desk: &D,
    pool: &Pool,
    header: &mut Header,
)
    requires { D.ready K.begun pool.now desk.now }
    ensures { header.new ≡ header_of place (content_tree content.now) (D.shown pool.now desk.now).state
        (D.shown pool.now desk.now).scope }
{
    header.layer = place;
    header.tag = content.tag;
    fill::<K, D>(&content.fields, desk, pool, &mut header.fields);
}

/// A header that is yet to be written.
#[inline(always)]
pub fn no_header() -> Header {
    Header {
        layer: 0,
        tag: 0,
        fields: Fields::new(),
    }
}

/// An emission without its message: its number arguments are evaluated.
#[inline(always)]
pub fn envelope<K: Start, D: Desk>(emission: &Emission, desk: &D, pool: &Pool) -> Envelope
    requires { D.ready K.begun pool.now desk.now }
    ensures { (message : Option Bytes) → event_in result message ≡
        event_of emission.now.kind (numbers_of (map expression_tree emission.now.numbers) (D.shown pool.now desk.now))
        message }
{
    let first = nth_number::<K, D>(&emission.numbers, 0, desk, pool);
    match emission.kind {
        Kind::Cast | Kind::Send => Envelope {
            kind: emission.kind,
            peer: first,
            a: 0,
            b: 0,
        },
        _ => Envelope {
            kind: emission.kind,
            peer: 0,
            a: first,
            b: nth_number::<K, D>(&emission.numbers, 1, desk, pool),
        },
    }
}

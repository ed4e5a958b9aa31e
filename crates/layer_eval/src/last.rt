//! Handlers' blocks, with which visits end.

ghost use Rattle.std.specs.Prelude.{◌≡◌, map, OnOk};
ghost use Rattle.typed_layer.specs.View.{trees, statement_tree, block_tree};
ghost use Rattle.layer_desk.specs.Need.{statement_need, block_need};
ghost use Rattle.layer_desk.specs.Spent.{Spent};
ghost use Rattle.layer_eval.specs.Did.{Did, Ended, statement_does, block_does};
ghost use Rattle.layer_eval.specs.Owed.{with_debt_paid, owing, SpentOwing};

use crate::effect::{emit_last, run_statement, set_number};
use crate::pending::Owed;
use crate::predicted::Predicted;
use crate::value::number;
use layer_desk::{Desk, NoRoom, Start};
use slot_pool::Pool;
use typed_layer::{Statement, StatementBlock};

/// Runs a handler's block, or a block with which one ends, of the layer at a place; keeps account of whether all has
/// gone as predicted; and lets go what the visit leaves, with an emission that is yet to go.
#[cycle(last)]
#[inline(always)]
pub fn run_last_block<K: Start, D: Desk>(
    place: u8,
    block: &StatementBlock,
    pending: &mut Owed,
    desk: &mut D,
    pool: &mut Pool,
    predicted: &mut Predicted,
) -> Result<(), NoRoom>
    requires { D.ready K.begun pool.old desk.old }
    ensures ready { D.ready K.begun pool.new desk.new }
    ensures ended { OnOk result (Ended (block_does place (block_tree block.now) (D.shown pool.old desk.old))
        (with_debt_paid pending.old (D.shown pool.old desk.old)) (D.shown pool.new desk.new) predicted.old
        predicted.new) }
    ensures spent { Spent (D.free pool.old desk.old) (D.free pool.new desk.new)
        (owing pending.old (block_need K.begun.layout (block_tree block.now))) result }
{
    match block.statements.as_slice() {
        [] => pending.finish::<K, D>(desk, pool),
        [last] => run_last::<K, D>(place, last, pending, desk, pool, predicted),
        [front @ .., last] => {
            run_front::<K, D>(place, front, pending, desk, pool, predicted)?;
            run_last::<K, D>(place, last, pending, desk, pool, predicted)
        }
    }
}

/// Runs the last statement of a block with which a visit ends. A decision is noted before the block that it chooses, so
/// that nothing is left to be done after that.
#[cycle(last)]
#[inline(never)]
fn run_last<K: Start, D: Desk>(
    place: u8,
    statement: &Statement,
    pending: &mut Owed,
    desk: &mut D,
    pool: &mut Pool,
    predicted: &mut Predicted,
) -> Result<(), NoRoom>
    requires { D.ready K.begun pool.old desk.old }
    ensures ready { D.ready K.begun pool.new desk.new }
    ensures ended { OnOk result (Ended (statement_does place (statement_tree statement.now) (D.shown pool.old desk.old))
        (with_debt_paid pending.old (D.shown pool.old desk.old)) (D.shown pool.new desk.new) predicted.old
        predicted.new) }
    ensures spent { Spent (D.free pool.old desk.old) (D.free pool.new desk.new)
        (owing pending.old (statement_need K.begun.layout (statement_tree statement.now))) result }
{
    match statement {
        Statement::Emit(emission) => {
            pending.settle::<K, D>(desk, pool)?;
            emit_last::<K, D>(place, emission, desk, pool)
        }
        Statement::Branch {
            likely,
            condition,
            block,
            otherwise,
        } => {
            if number::<K, D>(condition, desk, pool) != 0 {
                predicted.choose(true, *likely);
                run_last_block::<K, D>(place, block, pending, desk, pool, predicted)
            } else {
                predicted.choose(false, *likely);
                run_last_block::<K, D>(place, otherwise, pending, desk, pool, predicted)
            }
        }
        Statement::Take {
            cell,
            index,
            taken,
            block,
            otherwise,
        } => {
            pending.settle::<K, D>(desk, pool)?;
            let index = number::<K, D>(index, desk, pool);
            if desk.take::<K>(pool, *cell, index, taken)? {
                run_last_block::<K, D>(place, block, pending, desk, pool, predicted)
            } else {
                *predicted = Predicted::unusual();
                run_last_block::<K, D>(place, otherwise, pending, desk, pool, predicted)
            }
        }
        _ => {
            run_owing::<K, D>(place, statement, pending, desk, pool, predicted)?;
            pending.finish::<K, D>(desk, pool)
        }
    }
}

/// Runs statements that have others after them.
#[inline(always)]
fn run_front<K: Start, D: Desk>(
    place: u8,
    statements: &[Statement],
    pending: &mut Owed,
    desk: &mut D,
    pool: &mut Pool,
    predicted: &mut Predicted,
) -> Result<(), NoRoom>
    requires { D.ready K.begun pool.old desk.old }
    ensures ready { D.ready K.begun pool.new desk.new }
    ensures did { OnOk result
        (Did (block_does place (trees (map statement_tree statements.now)) (D.shown pool.old desk.old))
        (with_debt_paid pending.old (D.shown pool.old desk.old))
        (with_debt_paid pending.new (D.shown pool.new desk.new))
        predicted.old predicted.new) }
    ensures spent { SpentOwing pending.old pending.new (D.free pool.old desk.old) (D.free pool.new desk.new)
        (block_need K.begun.layout (trees (map statement_tree statements.now))) result }
{
    for statement in statements {
        run_owing::<K, D>(place, statement, pending, desk, pool, predicted)?;
    }
    Ok(())
}

/// Runs a statement. An emission that was put off waits until a statement comes that does more than set a number; an
/// emission may then be put off in its turn.
#[inline(always)]
#[tactic(auto, using(crate::proofs::Sets::set_owing))]
fn run_owing<K: Start, D: Desk>(
    place: u8,
    statement: &Statement,
    pending: &mut Owed,
    desk: &mut D,
    pool: &mut Pool,
    predicted: &mut Predicted,
) -> Result<(), NoRoom>
    requires { D.ready K.begun pool.old desk.old }
    ensures ready { D.ready K.begun pool.new desk.new }
    ensures did { OnOk result (Did (statement_does place (statement_tree statement.now) (D.shown pool.old desk.old))
        (with_debt_paid pending.old (D.shown pool.old desk.old))
        (with_debt_paid pending.new (D.shown pool.new desk.new))
        predicted.old predicted.new) }
    ensures spent { SpentOwing pending.old pending.new (D.free pool.old desk.old) (D.free pool.new desk.new)
        (statement_need K.begun.layout (statement_tree statement.now)) result }
{
    if set_number::<K, D>(statement, desk, pool) {
        return Ok(());
    }
    pending.settle::<K, D>(desk, pool)?;
    if let Statement::Emit(emission) = statement {
        if pending.put_off::<K, D>(place, emission, desk, pool) {
            return Ok(());
        }
    }
    run_statement::<K, D>(place, statement, desk, pool, predicted)
}

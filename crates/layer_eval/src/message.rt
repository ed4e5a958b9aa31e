//! Messages that are made in hand.

ghost use Rattle.std.specs.Prelude.{◌≡◌, OnOk};
ghost use Rattle.typed_layer.specs.View.{message_tree};
ghost use Rattle.layer_desk.specs.Laid.{lifted};
ghost use Rattle.layer_desk.specs.Need.{message_need};
ghost use Rattle.layer_desk.specs.Spent.{Lifted};
ghost use Rattle.layer_eval.specs.Worth.{message_of, bare, bare_need};

use crate::value::number;
use layer_desk::{Desk, NoRoom, RowAt, Start};
use slot_pool::Pool;
use typed_layer::{Carried, MessageExpression};

/// Makes a message, and leaves it first in hand.
#[tactic(auto, using(crate::proofs::Sizes::cut_bare, crate::proofs::Sizes::join_bare))]
pub fn make<K: Start, D: Desk>(
    message: &MessageExpression,
    desk: &mut D,
    pool: &mut Pool,
) -> Result<(), NoRoom>
    requires { D.ready K.begun pool.old desk.old }
    ensures ready { D.ready K.begun pool.new desk.new }
    ensures shown { OnOk result (D.shown pool.new desk.new ≡
        lifted (message_of (message_tree message.now) (D.shown pool.old desk.old)) (D.shown pool.old desk.old)) }
    ensures spent { Lifted (D.free pool.old desk.old) (D.free pool.new desk.new)
        (message_need (message_tree message.now)) result }
{
    match message {
        MessageExpression::Local(slot) => desk.lift::<K>(pool, *slot),
        MessageExpression::Nothing => desk.lift_nothing::<K>(pool),
        MessageExpression::Held {
            cell,
            index,
            row,
            carried,
        } => {
            let index = number::<K, D>(index, desk, pool);
            let row = number::<K, D>(row, desk, pool);
            let at = RowAt {
                cell: *cell,
                index,
                row,
            };
            desk.lift_row::<K>(pool, at, *carried)
        }
        MessageExpression::Cut {
            message: whole,
            from,
            length,
        } => {
            let from = number::<K, D>(from, desk, pool);
            let count = number::<K, D>(length, desk, pool);
            make_bare::<K, D>(whole, desk, pool)?;
            desk.cut::<K>(pool, from, count);
            Ok(())
        }
        MessageExpression::Tail {
            message: whole,
            from,
        } => {
            let from = number::<K, D>(from, desk, pool);
            make::<K, D>(whole, desk, pool)?;
            desk.tail::<K>(pool, from);
            Ok(())
        }
        MessageExpression::Join { first, second } => {
            make_bare::<K, D>(first, desk, pool)?;
            make::<K, D>(second, desk, pool)?;
            desk.join::<K>(pool)
        }
    }
}

/// Makes a message of which the bytes alone are of use.
#[tactic(auto, using(crate::proofs::Sizes::cut_bare, crate::proofs::Sizes::join_bare))]
fn make_bare<K: Start, D: Desk>(
    message: &MessageExpression,
    desk: &mut D,
    pool: &mut Pool,
) -> Result<(), NoRoom>
    requires { D.ready K.begun pool.old desk.old }
    ensures ready { D.ready K.begun pool.new desk.new }
    ensures shown { OnOk result (D.shown pool.new desk.new ≡
        lifted (message_of (bare (message_tree message.now)) (D.shown pool.old desk.old)) (D.shown pool.old desk.old)) }
    ensures spent { Lifted (D.free pool.old desk.old) (D.free pool.new desk.new) (bare_need (message_tree message.now))
        result }
{
    match message {
        MessageExpression::Local(slot) => desk.lift::<K>(pool, *slot),
        MessageExpression::Nothing => desk.lift_nothing::<K>(pool),
        MessageExpression::Held {
            cell,
            index,
            row,
            carried: _,
        } => {
            let index = number::<K, D>(index, desk, pool);
            let row = number::<K, D>(row, desk, pool);
            let at = RowAt {
                cell: *cell,
                index,
                row,
            };
            desk.lift_row::<K>(pool, at, Carried::Part)
        }
        MessageExpression::Cut {
            message: whole,
            from,
            length,
        } => {
            let from = number::<K, D>(from, desk, pool);
            let count = number::<K, D>(length, desk, pool);
            make_bare::<K, D>(whole, desk, pool)?;
            desk.cut::<K>(pool, from, count);
            Ok(())
        }
        MessageExpression::Tail {
            message: whole,
            from,
        } => {
            let from = number::<K, D>(from, desk, pool);
            make_bare::<K, D>(whole, desk, pool)?;
            desk.tail::<K>(pool, from);
            Ok(())
        }
        MessageExpression::Join { first, second } => {
            make_bare::<K, D>(first, desk, pool)?;
            make_bare::<K, D>(second, desk, pool)?;
            desk.join::<K>(pool)
        }
    }
}

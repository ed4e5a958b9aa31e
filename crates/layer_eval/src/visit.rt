//! One visit: what a layer meets, the handler for it, and what is done without one.

ghost use Rattle.std.specs.Prelude.{◌≡◌, ◌+◌, [], length, IfOk};
ghost use Rattle.layer_mean.specs.Visit.{met};
ghost use Rattle.typed_layer.specs.View.{expected_tree, handler_tree, layer_tree};
ghost use Rattle.layer_desk.specs.Need.{handler_need, passing_need};
ghost use Rattle.slot_pool.specs.References.{Moved};
ghost use Rattle.layer_desk.specs.Spent.{SpentAtMost, Spent, Suffices};
ghost use Rattle.layer_eval.specs.Did.{as_predicted};
ghost use Rattle.layer_eval.specs.Visit.{Visits, arrived_visit, need_of_visit, meets, IsPopped, expected_decisions};
ghost use Rattle.layer_eval.specs.Visit.{handler_visited};
ghost use Rattle.layer_eval.specs.Visit.{passed_visit};

use crate::last::run_last_block;
use crate::pending::Owed;
use crate::predicted::Predicted;
use crate::value::number;
use layer_desk::{Desk, NoRoom, Sending, Start};
use layer_mean::Envelope;
use layer_words::Dir;
use msg_core::{Fields, Header};
use slot_pool::Pool;
use std::marker::Brand;
use typed_layer::{Expected, Handler, TypedLayer};

/// An event that a layer takes: the layer's place, the direction, and the event without its message.
#[derive(Clone, Copy)]
pub struct Visit {
    pub place: u8,
    pub direction: Dir,
    pub envelope: Envelope,
}

/// A layer takes an event, whose message has arrived at its desk: the handler for its direction, kind and popped header
/// runs its block; without one the event passes, or is dropped. Says whether that went as predicted. No memory is
/// taken.
pub fn take_event<D: Desk>(
    visit: &Visit,
    layer: &TypedLayer,
    desk: &mut D,
    pool: &mut Pool,
) -> Predicted
    requires ready { D.ready
        (record {
          pool = pool.old;
          refs = D.refs desk.old;
          layout = D.layout desk.old;
          list = D.list desk.old;
          forms =
              D.forms desk.old;
        }) pool.old desk.old }
    requires room { Suffices (D.free pool.old desk.old)
        (need_of_visit (D.layout desk.old) (layer_tree layer.now) visit.now.direction visit.now.envelope
        (D.shown pool.old desk.old)) }

    // What lies at the desk, and what the call says, is what the definition of a visit has.
    ensures visited { Visits
        (arrived_visit visit.now.place (layer_tree layer.now) visit.now.direction visit.now.envelope
        (D.shown pool.old desk.old))
        (D.shown pool.old desk.old) (D.shown pool.new desk.new) result }
    ensures spent { SpentAtMost (D.free pool.old desk.old) (D.free pool.new desk.new)
        (need_of_visit (D.layout desk.old) (layer_tree layer.now) visit.now.direction visit.now.envelope
        (D.shown pool.old desk.old)) }

    // Each event that was sent has taken one place.
    ensures places { (D.free pool.new desk.new).places
        + length
        (arrived_visit visit.now.place (layer_tree layer.now) visit.now.direction visit.now.envelope
        (D.shown pool.old desk.old)).sent ≡
        (D.free pool.old desk.old).places }
    ensures moved { Moved pool.old pool.new (D.refs desk.old) (D.refs desk.new) }
    ensures layout { D.layout desk.new ≡ D.layout desk.old }
    ensures list { D.list desk.new ≡ D.list desk.old }
    ensures ready { D.ready
        (record {
          pool = pool.old;
          refs = D.refs desk.old;
          layout = D.layout desk.old;
          list = D.list desk.old;
          forms =
              D.forms desk.old;
        }) pool.new desk.new }
{
    match take_from::<Brand, D>(visit, layer, desk, pool) {
        Ok(says) => says,
        Err(_) => unreachable!(),
    }
}

/// A layer takes an event, whose message has arrived at its desk, and says whether that went as predicted; where a
/// handler's block lacks room, it answers what is lacking.
fn take_from<K: Start, D: Desk>(
    visit: &Visit,
    layer: &TypedLayer,
    desk: &mut D,
    pool: &mut Pool,
) -> Result<Predicted, NoRoom>
    requires ready { D.ready K.begun pool.old desk.old }
    requires room { Suffices (D.free pool.old desk.old)
        (need_of_visit K.begun.layout (layer_tree layer.now) visit.now.direction visit.now.envelope
        (D.shown pool.old desk.old)) }
    ensures ready { D.ready K.begun pool.new desk.new }
    ensures visited { IfOk result
        (Visits
        (arrived_visit visit.now.place (layer_tree layer.now) visit.now.direction visit.now.envelope
        (D.shown pool.old desk.old))
        (D.shown pool.old desk.old) (D.shown pool.new desk.new)) }
    ensures spent { Spent (D.free pool.old desk.old) (D.free pool.new desk.new)
        (need_of_visit K.begun.layout (layer_tree layer.now) visit.now.direction visit.now.envelope
        (D.shown pool.old desk.old)) result }
{
    let mut fields = Fields::new();
    let tag = meet::<K, D>(visit.direction, desk, pool, &mut fields);
    match layer
        .handlers
        .find(visit.direction, visit.envelope.kind, tag)
    {
        Some(handler) => run_handler::<K, D>(visit, handler, &fields, desk, pool),
        None => pass::<K, D>(visit, tag, desk, pool),
    }
}

/// Going up, the layer's header is popped. Says its tag, 0 where none was popped, and its fields.
fn meet<K: Start, D: Desk>(direction: Dir, desk: &mut D, pool: &Pool, fields: &mut Fields) -> u8
    requires ready { D.ready K.begun pool.now desk.old }
    requires none { fields.old ≡ [] }
    ensures ready { D.ready K.begun pool.now desk.new }
    ensures tag { result ≡ (met direction (D.shown pool.now desk.old).arrived).tag }
    ensures fields { fields.new ≡ (met direction (D.shown pool.now desk.old).arrived).fields }
    ensures popped { IsPopped result (met direction (D.shown pool.now desk.old).arrived).message }
    ensures shown { D.shown pool.now desk.new ≡ meets direction (D.shown pool.now desk.old) }
    ensures free { D.free pool.now desk.new ≡ D.free pool.now desk.old }
{
    match direction {
        Dir::Up => desk.pop_header::<K>(pool, fields),
        Dir::Down => 0,
    }
}

/// Enters a handler's block, for which there is room, and runs it.
#[tactic(auto, using(crate::proofs::Acts::both_turned))]
fn run_handler<K: Start, D: Desk>(
    visit: &Visit,
    handler: &Handler,
    fields: &Fields,
    desk: &mut D,
    pool: &mut Pool,
) -> Result<Predicted, NoRoom>
    requires ready { D.ready K.begun pool.old desk.old }
    requires room { Suffices (D.free pool.old desk.old)
        (handler_need K.begun.layout (handler_tree handler.now) (D.shown pool.old desk.old).arrived) }
    ensures ready { D.ready K.begun pool.new desk.new }
    ensures visited { IfOk result
        (Visits
        (handler_visited visit.now.place (handler_tree handler.now) visit.now.envelope fields.now
        (D.shown pool.old desk.old))
        (D.shown pool.old desk.old) (D.shown pool.new desk.new)) }
    ensures spent { Spent (D.free pool.old desk.old) (D.free pool.new desk.new)
        (handler_need K.begun.layout (handler_tree handler.now) (D.shown pool.old desk.old).arrived) result }
{
    desk.enter::<K>(pool, visit.envelope, fields, handler);
    let mut predicted = expect::<K, D>(&handler.expected, desk, pool);
    let mut owed = Owed::new();
    run_last_block::<K, D>(
        visit.place,
        &handler.block,
        &mut owed,
        desk,
        pool,
        &mut predicted,
    )?;
    Ok(predicted)
}

/// Whether a handler is as expected at its entry.
fn expect<K: Start, D: Desk>(expected: &Expected, desk: &D, pool: &Pool) -> Predicted
    requires { D.ready K.begun pool.now desk.now }
    ensures { result ≡ as_predicted (expected_decisions (expected_tree expected.now) (D.shown pool.now desk.now)) }
{
    match expected {
        Expected::Always => Predicted::usual(),
        Expected::Common(condition) => {
            if number::<K, D>(condition, desk, pool) != 0 {
                Predicted::usual()
            } else {
                Predicted::unusual()
            }
        }
        Expected::Rare => Predicted::unusual(),
    }
}

/// Without a handler an event passes on: going down after the layer's header `none`, going up where that was popped.
/// After another header it is dropped, which is never predicted.
fn pass<K: Start, D: Desk>(
    visit: &Visit,
    tag: u8,
    desk: &mut D,
    pool: &mut Pool,
) -> Result<Predicted, NoRoom>
    requires ready { D.ready K.begun pool.old desk.old }
    requires popped { IsPopped tag (D.shown pool.old desk.old).arrived }
    ensures ready { D.ready K.begun pool.new desk.new }
    ensures visited { IfOk result
        (Visits
        (passed_visit visit.now.place visit.now.direction visit.now.envelope tag (D.shown pool.old desk.old))
        (D.shown pool.old desk.old) (D.shown pool.new desk.new)) }
    ensures spent { Spent (D.free pool.old desk.old) (D.free pool.new desk.new)
        (passing_need (D.shown pool.old desk.old).arrived) result }
{
    if visit.direction == Dir::Up && tag != 0 {
        desk.leave::<K>(pool);
        return Ok(Predicted::unusual());
    }
    let passed = Sending {
        direction: visit.direction,
        envelope: visit.envelope,
        header: Header {
            layer: visit.place,
            tag: 0,
            fields: Fields::new(),
        },
    };
    desk.pass_on::<K>(pool, &passed)?;
    desk.leave::<K>(pool);
    Ok(Predicted::usual())
}

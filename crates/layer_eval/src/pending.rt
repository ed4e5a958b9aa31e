//! Emissions that are yet to go. Sending a message of the scope costs least where the visit ends with it; so its
//! emission is put off over statements that don't touch messages.

ghost use Rattle.std.specs.Prelude.{◌≡◌, Some, OnOk};
ghost use Rattle.layer_desk.specs.Need.{one_place};
ghost use Rattle.layer_desk.specs.Spent.{Spent};
ghost use Rattle.layer_eval.specs.Owed.{with_debt_paid};

use crate::effect::{envelope, no_header, write_header};
use layer_desk::{Desk, NoRoom, Sending, Start};
use layer_mean::Envelope;
use layer_words::{Dir, Kind};
use slot_pool::Pool;
use std::marker::Model;
use typed_layer::{Emission, MessageExpression};

/// An emission whose arguments are evaluated, and whose message, which stands in a slot of the scope, is yet to go.
#[derive(Clone, Copy)]
pub struct Pending {
    pub sending: Sending,
    pub slot: u8,
}

/// A place for one or none. It is written where it stays, so that none is moved by value.
#[derive(Drop)]
pub struct Owed {
    emission: Pending,
    is_owed: bool,
}

impl Model for Owed {
    ghost use Rattle.std.specs.Prelude.{if◌then◌else◌, Option, Some, None};
    ghost use Rattle.layer_eval.specs.declared.pending.Pending.{Pending};

    ghost Value = { Option Pending };

    ghost view = { λ o. if o.is_owed then Some o.emission else None };
}

impl Owed {
    ghost use Rattle.std.specs.Prelude.{◌≡◌, None, OnOk};
    ghost use Rattle.layer_mean.specs.Effect.{emitted_event};
    ghost use Rattle.typed_layer.specs.View.{emission_tree};
    ghost use Rattle.layer_desk.specs.Laid.{left};
    ghost use Rattle.layer_desk.specs.Need.{nothing_needed};
    ghost use Rattle.layer_desk.specs.Spent.{Spent};
    ghost use Rattle.layer_eval.specs.Owed.{with_debt_paid, owing, IsPutOff, may_wait};

    /// Nothing is owed.
    pub fn new() -> Owed
        ensures { result ≡ None }
    {
        Owed {
            emission: Pending {
                sending: Sending {
                    direction: Dir::Up,
                    envelope: Envelope {
                        kind: Kind::Cast,
                        peer: 0,
                        a: 0,
                        b: 0,
                    },
                    header: no_header(),
                },
                slot: 0,
            },
            is_owed: false,
        }
    }

    /// Evaluates an emission and puts it off, if it sends a message of the scope; otherwise does nothing. Nothing may
    /// be owed before. Says whether it was put off.
    pub fn put_off<K: Start, D: Desk>(
        &mut self,
        place: u8,
        emission: &Emission,
        desk: &D,
        pool: &Pool,
    ) -> bool
        requires ready { D.ready K.begun pool.now desk.now }
        requires none { self.old ≡ None }
        ensures waits { result ≡ may_wait (emission_tree emission.now) }
        ensures put_off { IsPutOff result self.new (
          emission.now.direction,
          emitted_event place (emission_tree emission.now) (D.shown pool.now desk.now).state
              (D.shown pool.now desk.now).scope,
        ) (D.shown pool.now desk.now) }
    {
        let Some(content) = &emission.content else {
            return false;
        };
        let MessageExpression::Local(slot) = &content.message else {
            return false;
        };
        self.emission.sending.direction = emission.direction;
        self.emission.sending.envelope = envelope::<K, D>(emission, desk, pool);
        write_header::<K, D>(
            place,
            content,
            desk,
            pool,
            &mut self.emission.sending.header,
        );
        self.emission.slot = *slot;
        self.is_owed = true;
        true
    }

    /// Lets an emission that was put off go, if there is one.
    #[inline(always)]
    pub fn settle<K: Start, D: Desk>(&mut self, desk: &mut D, pool: &mut Pool) -> Result<(), NoRoom>
        requires { D.ready K.begun pool.old desk.old }
        ensures ready { D.ready K.begun pool.new desk.new }
        ensures none { OnOk result (self.new ≡ None) }
        ensures shown { OnOk result (D.shown pool.new desk.new ≡ with_debt_paid self.old (D.shown pool.old desk.old)) }
        ensures spent { Spent (D.free pool.old desk.old) (D.free pool.new desk.new) (owing self.old nothing_needed)
            result }
    {
        if self.is_owed {
            send_owed::<K, D>(&self.emission, desk, pool)?;
            self.is_owed = false;
        }
        Ok(())
    }

    /// Lets what the visit leaves go. With an emission that was put off its message goes on.
    #[inline(never)]
    pub fn finish<K: Start, D: Desk>(&self, desk: &mut D, pool: &mut Pool) -> Result<(), NoRoom>
        requires { D.ready K.begun pool.old desk.old }
        ensures ready { D.ready K.begun pool.new desk.new }
        ensures shown { OnOk result
            (D.shown pool.new desk.new ≡ left (with_debt_paid self.now (D.shown pool.old desk.old))) }
        ensures spent { Spent (D.free pool.old desk.old) (D.free pool.new desk.new) (owing self.now nothing_needed)
            result }
    {
        if !self.is_owed {
            desk.leave::<K>(pool);
            return Ok(());
        }
        let owed = &self.emission;
        desk.send_local_and_leave::<K>(pool, &owed.sending, owed.slot)
    }
}

#[inline(never)]
fn send_owed<K: Start, D: Desk>(owed: &Pending, desk: &mut D, pool: &mut Pool) -> Result<(), NoRoom>
    requires { D.ready K.begun pool.old desk.old }
    ensures ready { D.ready K.begun pool.new desk.new }
    ensures shown { OnOk result
        (D.shown pool.new desk.new ≡ with_debt_paid (Some owed.now) (D.shown pool.old desk.old)) }
    ensures spent { Spent (D.free pool.old desk.old) (D.free pool.new desk.new) one_place result }
{
    desk.send_local::<K>(pool, &owed.sending, owed.slot)
}

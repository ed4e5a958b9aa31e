//! Datagrams of both forms, without memory.

ghost use Rattle.std.specs.Prelude.{◌≡◌, ◌≤◌, IfOk, length, vec_capacity};
ghost use Rattle.std.specs.List.{AllByRecursion};
ghost use Rattle.stack_judge.specs.Answer.{stack_tree};
ghost use Rattle.packet_full.specs.Scanned.{Scans};
ghost use Rattle.packet_mean.specs.Plan.{kind_of};
ghost use Rattle.packet_mean.specs.Received.{received};
ghost use Rattle.stack_shapes.specs.Trees.{plans_tree};
ghost use Rattle.packet_short.specs.Keeping.{HasAtMost};
ghost use Rattle.packet_short.specs.Layouts.{AreLaidOut, IsReadAs};

use crate::contents::contents;
use crate::known::Known;
use msg_core::Stray;
use packet_full::{Opened, Scan, close, open};
use packet_mean::Here;

/// Reads what a datagram, full or short, says to a member of a stack into `scan`; or answers the first cause for which
/// it is refused, and then `scan` is of no use. The headers are whole: the constants of a plan stand in them. For a
/// short datagram, it also answers the least plan that its packet fits, if that is known; `fields` then has the fields
/// that this plan leaves variable, in place of what it held, and otherwise what it holds is of no use. It takes no
/// memory: there must be room for the fields of each plan.
pub fn scan_packet(
    known: &Known<'_>,
    here: &Here,
    bytes: &[u8],
    scan: &mut Scan,
    fields: &mut Vec<u32>,
) -> Result<Option<u8>, Stray>
    requires laid { AreLaidOut (stack_tree known.now.stack.now) (plans_tree known.now.plans.now)
        known.now.layouts.now }
    requires room { AllByRecursion (HasAtMost (vec_capacity fields.old)) (plans_tree known.now.plans.now) }
    ensures read { Scans here.now bytes.now
        (received (stack_tree known.now.stack.now) (plans_tree known.now.plans.now) here.now bytes.now)
        result scan.new }
    ensures within { IfOk result (λ _. scan.new.body ≤ length bytes.now) }
    ensures known { IfOk result (λ number. IsReadAs (plans_tree known.now.plans.now) number
        (kind_of scan.new.dest) scan.new.headers fields.new.items) }
    ensures capacity { vec_capacity fields.new ≡ vec_capacity fields.old }
{
    known.stack.law_within_limits();
    let Opened { front, mut cursor } = match open(here, bytes) {
        Ok(opened) => opened,
        Err(cause) => return Err(cause),
    };
    let number = match contents(known, &front, &mut cursor, &mut scan.headers, fields) {
        Ok(number) => number,
        Err(cause) => return Err(cause),
    };
    match close(bytes, &front, &cursor, scan) {
        Ok(()) => Ok(number),
        Err(cause) => Err(cause),
    }
}

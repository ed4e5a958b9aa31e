//! The headers of a datagram, in either form.

ghost use Rattle.std.specs.Prelude.{◌≡◌, IfOk, IfSome, Some, option_map, slice_get, vec_capacity};
ghost use Rattle.std.specs.List.{AllByRecursion};
ghost use Rattle.stack_judge.specs.Answer.{stack_tree};
ghost use Rattle.packet_full.specs.Steps as steps;
ghost use Rattle.packet_full.specs.Taking.{Takes, left, preamble_tree};
ghost use Rattle.packet_mean.specs.Plan as mean;
ghost use Rattle.stack_shapes.specs.Lists.{plan_tree};
ghost use Rattle.stack_shapes.specs.Trees.{plans_tree};
ghost use Rattle.packet_short.specs.Contents.{Contains, plan_named};
ghost use Rattle.packet_short.specs.Keeping.{HasAtMost};
ghost use Rattle.packet_short.specs.Layouts.{AreLaidOut, IsNamed, IsReadAs};

use crate::fit::kind_of;
use crate::known::Known;
use crate::layout::Layout;
use crate::planned::Planned;
use msg_core::{Dest, Headers, Stray};
use packet_full::{Cursor, FULL_FORM, Preamble};
use stack_judge::Stack;
use stack_shapes::{Plan, Plans};

/// The plan that a short datagram names, and its number, if it is one of its destination's kind.
fn named<'a>(plans: &'a Plans, dest: Dest, cursor: &mut Cursor<'_>) -> Option<(u8, &'a Plan)>
    ensures plan { Takes (plan_named (plans_tree plans.now) dest (left cursor.old))
        (option_map (λ named. plan_tree named.1.now) result) (left cursor.new) }
    ensures listed { IfSome result (λ named.
        slice_get (plans_tree plans.now) named.0 ≡ Some (plan_tree named.1.now)) }
    ensures kind { IfSome result (λ named. named.1.now.kind ≡ mean.kind_of dest) }
{
    let number = cursor.byte()?;
    let plan = plans.get(number)?;
    if plan.kind == kind_of(dest) {
        Some((number, plan))
    } else {
        None
    }
}

/// Reads the headers after a datagram's preamble, one after the other; the bytes that are left are its body.
fn contents_in_turn(
    stack: &Stack,
    plans: &Plans,
    front: &Preamble,
    cursor: &mut Cursor<'_>,
    headers: &mut Headers,
) -> Result<(), Stray>
    ensures { Contains (steps.contents (stack_tree stack.now) (plans_tree plans.now) (preamble_tree front.now)
        (left cursor.old)) result headers.new (left cursor.new) }
{
    headers.clear();
    if front.form == FULL_FORM {
        let Some(()) = cursor.chain(stack, 0, headers) else {
            return Err(Stray::Chain)
        };
        return Ok(());
    }
    let Some((_, plan)) = named(plans, front.dest, cursor) else {
        return Err(Stray::Plan)
    };
    let mut planned = Planned::of(plan);
    let Some(()) = planned.chain(cursor, stack, 0, headers) else {
        return Err(Stray::Chain)
    };
    Ok(())
}

/// The headers of the plan that a short datagram names, and its number, if they are laid out.
fn laid_out<'a>(known: &Known<'a>, dest: Dest, cursor: &mut Cursor<'_>) -> Option<(u8, &'a Layout)>
    requires { AreLaidOut (stack_tree known.now.stack.now) (plans_tree known.now.plans.now) known.now.layouts.now }
    ensures { IfSome result (λ named. IsNamed (stack_tree known.now.stack.now) (plans_tree known.now.plans.now) dest
        named.0 named.1.now (left cursor.old) (left cursor.new)) }
{
    let (number, _) = named(known.plans, dest, cursor)?;
    let layout = known.layouts.get(number)?;
    Some((number, layout))
}

/// Reads the headers after a datagram's preamble; the bytes that are left are its body. For a short datagram whose plan
/// is laid out, it also answers the least plan that the headers fit, if that is known; `fields` then has the fields
/// that this plan leaves variable, in place of what it held.
pub(crate) fn contents(
    known: &Known<'_>,
    front: &Preamble,
    cursor: &mut Cursor<'_>,
    headers: &mut Headers,
    fields: &mut Vec<u32>,
) -> Result<Option<u8>, Stray>
    requires laid { AreLaidOut (stack_tree known.now.stack.now) (plans_tree known.now.plans.now)
        known.now.layouts.now }
    requires room { AllByRecursion (HasAtMost (vec_capacity fields.old)) (plans_tree known.now.plans.now) }
    ensures read { Contains (steps.contents (stack_tree known.now.stack.now) (plans_tree known.now.plans.now)
        (preamble_tree front.now) (left cursor.old)) result headers.new (left cursor.new) }
    ensures known { IfOk result (λ number. IsReadAs (plans_tree known.now.plans.now) number
        (mean.kind_of front.now.dest) headers.new fields.new.items) }
    ensures capacity { vec_capacity fields.new ≡ vec_capacity fields.old }
{
    if front.form != FULL_FORM {
        let mut following = *cursor;
        if let Some((number, layout)) = laid_out(known, front.dest, &mut following) {
            let Some(()) = layout.read(&mut following, headers, fields) else {
                return Err(Stray::Chain)
            };
            *cursor = following;
            return Ok(layout.known(number));
        }
    }
    match contents_in_turn(known.stack, known.plans, front, cursor, headers) {
        Ok(()) => Ok(None),
        Err(cause) => Err(cause),
    }
}

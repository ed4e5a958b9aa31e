//! The least plan that a packet fits.

ghost use Rattle.std.specs.Prelude.{◌≡◌, ℕ, ◌<◌, ◌≤◌, List, Some, length, map, flat_map, position};
ghost use Rattle.std.specs.Prelude.{vec_capacity};
ghost use Rattle.std.specs.List.{AllByRecursion};
ghost use Rattle.stack_mean.specs.Plan.{Plan};
ghost use Rattle.packet_mean.specs.Plan as mean;
ghost use Rattle.packet_mean.specs.Plan.{least_fit};
ghost use Rattle.packet_mean.specs.declared.here.Here.{Here};
ghost use Rattle.packet_full.specs.Scanned.{packet_scanned};
ghost use Rattle.stack_shapes.specs.Lists.{plan_tree};
ghost use Rattle.stack_shapes.specs.Prints as prints;
ghost use Rattle.stack_shapes.specs.Trees.{plans_tree};
ghost use Rattle.packet_short.specs.Fits.{first_fits, fits_headers};
ghost use Rattle.packet_short.specs.Keeping.{HasAtMost, KeepsIf, kept_by};
ghost use Rattle.packet_mean.specs.Plan.{variable};

use crate::agreement::is_alike;
use layer_words::Kind;
use msg_core::{Dest, Headers};
use packet_full::Scan;
use stack_shapes::{Plan, Plans, Print};

/// The kind of a packet to a destination.
pub fn kind_of(dest: Dest) -> Kind
    ensures { result ≡ mean.kind_of dest }
{
    match dest {
        Dest::All => Kind::Cast,
        Dest::Rank(_) => Kind::Send,
    }
}

/// The print of packets of a kind with the tags of these headers.
pub(crate) fn print_of(kind: Kind, headers: &Headers) -> Print
    ensures { result.byte ≡ prints.print_of kind (map (λ h. h.tag) headers.now) }
{
    let mut print = Print::of(kind);
    for header in headers.slice() {
        print = print.with(header.tag);
    }
    print
}

/// Whether headers of a packet of a kind are as a plan says; if they are, `into` then has the fields that the plan
/// leaves variable, in place of what it held.
fn is_fitting(plan: &Plan, kind: Kind, headers: &Headers, into: &mut Vec<u32>) -> bool
    requires { length plan.now.fields.items ≤ vec_capacity into.old }
    ensures fits { result ≡ fits_headers kind headers.now (plan_tree plan.now) }
    ensures fields { KeepsIf result (variable (plan_tree plan.now).fields (flat_map (λ h. h.fields) headers.now))
        into.new.items }
    ensures capacity { vec_capacity into.new ≡ vec_capacity into.old }
{
    plan.kind == kind && is_alike(plan, headers, into)
}

/// Whether headers of a packet of a kind are as the first plan says; if they are, `into` then has the fields that the
/// plan leaves variable, in place of what it held.
fn fits_first(plans: &Plans, kind: Kind, headers: &Headers, into: &mut Vec<u32>) -> bool
    requires room { AllByRecursion (HasAtMost (vec_capacity into.old)) (plans_tree plans.now) }
    ensures fits { result ≡ first_fits (fits_headers kind headers.now) (plans_tree plans.now) }
    ensures fields { KeepsIf result (kept_by (plans_tree plans.now) (Some 0) (flat_map (λ h. h.fields) headers.now))
        into.new.items }
    ensures capacity { vec_capacity into.new ≡ vec_capacity into.old }
{
    match plans.get(0) {
        Some(plan) => is_fitting(plan, kind, headers, into),
        None => false,
    }
}

/// The number of the least plan that headers of a packet of a kind fit; `into` then has the fields that this plan
/// leaves variable, or none where there is no plan, in place of what it held. Most fit the first plan; of the others
/// only those of their print are looked at.
fn least(plans: &Plans, kind: Kind, headers: &Headers, into: &mut Vec<u32>) -> Option<u8>
    requires room { AllByRecursion (HasAtMost (vec_capacity into.old)) (plans_tree plans.now) }
    ensures least { result ≡ position (fits_headers kind headers.now) (plans_tree plans.now) }
    ensures fields { into.new.items ≡ kept_by (plans_tree plans.now) result (flat_map (λ h. h.fields) headers.now) }
    ensures capacity { vec_capacity into.new ≡ vec_capacity into.old }
{
    if fits_first(plans, kind, headers, into) {
        return Some(0);
    }
    let mut next = plans.first(print_of(kind, headers));
    while let Some(number) = next {
        if is_fitting(&plans.slice()[usize::from(number)], kind, headers, into) {
            return Some(number);
        }
        next = plans.next(number);
    }
    into.clear();
    None
}

/// The number of the least plan that a scanned packet fits, whatever its body; None where it fits none. `into` then has
/// the fields that this plan leaves variable, or none where there is no plan, in place of what it held. It takes no
/// memory: there must be room for the fields of each plan.
pub fn fits_scan(plans: &Plans, scan: &Scan, into: &mut Vec<u32>) -> Option<u8>
    requires room { AllByRecursion (HasAtMost (vec_capacity into.old)) (plans_tree plans.now) }
    ensures fits { (here : Here) (bytes : List ℕ) →
        result ≡ least_fit (plans_tree plans.now) (packet_scanned here bytes scan.now) }
    ensures fields { into.new.items ≡
        kept_by (plans_tree plans.now) result (flat_map (λ h. h.fields) scan.now.headers) }
    ensures capacity { vec_capacity into.new ≡ vec_capacity into.old }
{
    least(plans, kind_of(scan.dest), &scan.headers, into)
}

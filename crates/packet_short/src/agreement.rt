//! Whether headers are as a plan says; the fields that it leaves variable are kept meanwhile.

ghost use Rattle.std.specs.Prelude.{◌≡◌, ◌+◌, ◌≤◌, ◌∷◌, [], IfSome, length, flat_map, option_map, vec_len};
ghost use Rattle.std.specs.Prelude.{vec_capacity};
ghost use Rattle.packet_mean.specs.Plan.{agree, variable};
ghost use Rattle.packet_short.specs.Fits.{alike, following};
ghost use Rattle.packet_short.specs.Keeping.{KeepsIf};
ghost use Rattle.packet_short.specs.Shortened.{KeepsVariable};

use crate::fields::keep_variable;
use msg_core::{Fields, Header, Headers};
use stack_shapes::Plan;

/// Whether a number is as planned.
fn agrees(planned: Option<u32>, number: u32) -> bool
    ensures { result ≡ agree (planned ∷ []) (number ∷ []) }
{
    match planned {
        Some(constant) => number == constant,
        None => true,
    }
}

/// The planned fields after those of a header, if its fields agree with theirs; the variable ones of these are put
/// after others.
fn following<'a>(
    planned: &'a [Option<u32>],
    fields: &Fields,
    into: &mut Vec<u32>,
) -> Option<&'a [Option<u32>]>
    requires { vec_len into.old + length planned.now ≤ vec_capacity into.old }
    ensures rest { option_map (λ rest. rest.now) result ≡ following planned.now fields.now }
    ensures items { IfSome result
        (λ rest. KeepsVariable planned.now fields.now rest.now into.old.items into.new.items) }
    ensures len { IfSome result (λ rest. vec_len into.new + length rest.now ≤ vec_len into.old + length planned.now) }
    ensures capacity { vec_capacity into.new ≡ vec_capacity into.old }
{
    let mut left = planned;
    for place in 0..fields.len() {
        let Some((first, rest)) = left.split_first() else {
            return None
        };
        let number = fields.at(place);
        if !agrees(*first, number) {
            return None;
        }
        keep_variable(*first, number, into);
        left = rest;
    }
    Some(left)
}

/// The planned fields after those of a header, as `following` answers them. Most headers have none.
fn after_header<'a>(
    planned: &'a [Option<u32>],
    header: &Header,
    into: &mut Vec<u32>,
) -> Option<&'a [Option<u32>]>
    requires { vec_len into.old + length planned.now ≤ vec_capacity into.old }
    ensures rest { option_map (λ rest. rest.now) result ≡ following planned.now header.now.fields }
    ensures items { IfSome result
        (λ rest. KeepsVariable planned.now header.now.fields rest.now into.old.items into.new.items) }
    ensures len { IfSome result (λ rest. vec_len into.new + length rest.now ≤ vec_len into.old + length planned.now) }
    ensures capacity { vec_capacity into.new ≡ vec_capacity into.old }
{
    if header.fields.len() == 0 {
        return Some(planned);
    }
    following(planned, &header.fields, into)
}

/// Whether headers have a plan's tags, and fields as planned; if so, `into` then has the variable fields, in place of
/// what it held.
pub(crate) fn is_alike(plan: &Plan, headers: &Headers, into: &mut Vec<u32>) -> bool
    requires { length plan.now.fields.items ≤ vec_capacity into.old }
    ensures alike { result ≡ alike plan.now.tags.items plan.now.fields.items headers.now }
    ensures fields { KeepsIf result (variable plan.now.fields.items (flat_map (λ h. h.fields) headers.now))
        into.new.items }
    ensures capacity { vec_capacity into.new ≡ vec_capacity into.old }
{
    into.clear();
    let tags = plan.tags.as_slice();
    let mut fields = plan.fields.as_slice();
    let theirs = headers.slice();
    if tags.len() != theirs.len() {
        return false;
    }
    for place in 0..theirs.len() {
        let header = &theirs[place];
        if tags[place] != header.tag {
            return false;
        }
        let Some(rest) = after_header(fields, header, into) else {
            return false
        };
        fields = rest;
    }
    fields.is_empty()
}

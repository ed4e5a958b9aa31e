//! Numbers in words, and lists of members.
#![tactic(auto, using(crate::proofs::Bounds::within_bounds))]

ghost use Rattle.std.specs.Prelude.{◌≡◌, ◌≤◌, IfOk, IfSome, ◌==◌, length, nat_lt, option_map};
ghost use Rattle.std.specs.List.{list_all, slice_split};
ghost use Rattle.script_mean.specs.Words as words;
ghost use Rattle.job_mean.specs.Job as spec;
ghost use Rattle.job_text.specs.Shown.{text};
ghost use Rattle.msg_core.specs.View.{most_members};

use msg_core::LAST_MEMBER;
use script_text::{cut, number_within};
use std::alloc::{AllocError, Global};

/// A number that has to be given, within bounds.
pub fn a_number(low: u32, high: u32, given: Option<&str>) -> Option<u32>
    ensures is { result ≡ spec.a_number low high (text given.entry) }
    ensures bounds { IfSome result (λ number. (low ≤ number) × (number ≤ high)) }
{
    number_within(low, high, given?.as_bytes())
}

/// A number within a bound that is 0 where it isn't given.
pub fn a_number_or_zero(high: u32, given: Option<&str>) -> Option<u32>
    ensures { result ≡ spec.a_number_or_zero high (text given.entry) }
{
    match given {
        Some(text) => number_within(0, high, text.as_bytes()),
        None => Some(0),
    }
}

/// Members that have to be given, one or more in ascending order, with commas between.
pub(crate) fn some_members(
    alloc: Global,
    given: Option<&str>,
) -> Result<Option<Vec<u32>>, AllocError>
    ensures are { IfOk result (λ members. option_map (λ m. m.items) members ≡ spec.some_members (text given.entry)) }
    ensures few { IfOk result (λ members. IfSome members (λ m. length m.items ≤ most_members)) }
{
    let Some(text) = given else {
        return Ok(None);
    };
    let Some(members) = members_in(alloc, text.as_bytes())? else {
        return Ok(None);
    };
    if is_ascending(&members) {
        Ok(Some(members))
    } else {
        Ok(None)
    }
}

/// The members that words with commas between them name.
fn members_in(alloc: Global, text: &[u8]) -> Result<Option<Vec<u32>>, AllocError>
    ensures { IfOk result (λ members. option_map (λ m. m.items) members ≡ spec.members_in
        (slice_split (λ byte. byte == 44) text.now)) }
{
    let mut members = Vec::new(alloc);
    let mut rest = Some(text);
    while let Some(text) = rest {
        let (word, following) = cut(b',', text);
        let Some(member) = number_within(0, u32::from(LAST_MEMBER), word) else {
            return Ok(None);
        };
        members.push(member)?;
        rest = following;
    }
    Ok(Some(members))
}

/// Each number is below all those after it.
fn is_ascending(numbers: &[u32]) -> bool
    ensures { result ≡ spec.is_ascending numbers.now }
{
    let mut left = numbers;
    while let [first, more @ ..] = left {
        if !are_above(*first, more) {
            return false;
        }
        left = more;
    }
    true
}

fn are_above(low: u32, numbers: &[u32]) -> bool
    ensures { result ≡ list_all (nat_lt low) numbers.now }
{
    numbers.iter().all(|number| low < *number)
}

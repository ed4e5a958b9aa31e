//! The least delivery that a member lacks of another with which it goes into a view.
ghost use Rattle.std.specs.Prelude.{◌≡◌, ◌&&◌, ◌∷◌, [], List, map, filter, IfOk};
ghost use Rattle.std.specs.HashMap as hash;
ghost use Rattle.audit_mean.specs.Segment as segment;
ghost use Rattle.audit_mean.specs.Finding.{least};
ghost use Rattle.audit_judge.specs.Lacks.{Counts, all_lacks, ended_shown, entries_in, exceeds, first_of, goes_with};
ghost use Rattle.audit_judge.specs.Lacks.{is_other, lacks_in, lacks_of_one, ranked_shown, same_content_key, surplus};
ghost use Rattle.audit_judge.specs.Marks.{IsInLine, is_before};

use crate::contents::{Content, Ranked, content_of, count, count_of};
use crate::ended::Ended;
use crate::marks::first_lacking;
use std::alloc::{AllocError, Global};
use std::collections::HashMap;

/// The numbers of the lines of the least breach: the second line ended a segment, and the first is another member's
/// delivery that the segment lacks.
pub(crate) fn least_lack<'a>(
    alloc: Global,
    ended: &[Ended<'a>],
) -> Result<Option<(u32, u32)>, AllocError>
    requires { IsInLine (map ended_shown ended.now) }
    ensures { IfOk result (λ found. found ≡ least (all_lacks (map ended_shown ended.now))) }
{
    let line = first_lacking(alloc, ended)?;
    for one in ended {
        if !is_before(one.line, line) {
            let lack = lack_of(alloc, ended, one)?;
            if lack.is_some() {
                return Ok(lack);
            }
        }
    }
    Ok(None)
}

/// The first delivery that a segment lacks of those in its group.
fn lack_of<'a>(
    alloc: Global,
    ended: &[Ended<'a>],
    one: &Ended<'a>,
) -> Result<Option<(u32, u32)>, AllocError>
    ensures { IfOk result (λ found. found ≡ least (lacks_in (map ended_shown ended.now) (ended_shown one.now))) }
{
    let counts = count(alloc, one.deliveries.as_slice())?;
    let mut found = None;
    for other in ended {
        let lack = lack_from(one, &counts, other);
        found = first_of(found, lack);
    }
    Ok(found)
}

/// The first delivery of another segment that a segment with these counts lacks, if the other is of its group and of
/// another member.
fn lack_from<'a>(
    one: &Ended<'a>,
    counts: &HashMap<Content<'a>, usize>,
    other: &Ended<'a>,
) -> Option<(u32, u32)>
    ensures { Counts (hash.get same_content_key counts.now) (entries_in (ended_shown one.now)) →
        result ≡ least (lacks_of_one (ended_shown one.now)
        (filter (goes_with (ended_shown one.now)) (ended_shown other.now ∷ []))) }
{
    if !goes_along(one, other) {
        return None;
    }
    first_surplus(one.line, counts, other.deliveries.as_slice())
}

#[tactic(auto, using(crate::proofs::First::parted, crate::proofs::First::alike))]
fn goes_along(one: &Ended<'_>, other: &Ended<'_>) -> bool
    ensures { result ≡ (goes_with (ended_shown one.now) (ended_shown other.now) &&
        is_other (ended_shown one.now) (ended_shown other.now)) }
{
    goes_with(one, other) && one.member != other.member
}

fn goes_with(one: &Ended<'_>, other: &Ended<'_>) -> bool
    ensures { result ≡ goes_with (ended_shown one.now) (ended_shown other.now) }
{
    other.way == one.way
}

/// The first of these deliveries that is one too many of its content for a segment with these counts.
fn first_surplus(
    line: u32,
    counts: &HashMap<Content<'_>, usize>,
    deliveries: &[Ranked<'_>],
) -> Option<(u32, u32)>
    ensures { (all : List segment.Entry) → Counts (hash.get same_content_key counts.now) all →
        result ≡ least (surplus line all (map ranked_shown deliveries.now)) }
{
    let mut found = None;
    for delivery in deliveries {
        if exceeds(counts, delivery) {
            found = first_of(found, Some((delivery.entry.line, line)));
        }
    }
    found
}

fn exceeds(counts: &HashMap<Content<'_>, usize>, delivery: &Ranked<'_>) -> bool
    ensures { (all : List segment.Entry) → Counts (hash.get same_content_key counts.now) all →
        result ≡ exceeds all (ranked_shown delivery.now) }
{
    delivery.place == count_of(counts, content_of(&delivery.entry))
}

fn first_of(a: Option<(u32, u32)>, b: Option<(u32, u32)>) -> Option<(u32, u32)>
    ensures { result ≡ first_of a b }
{
    match (a, b) {
        (Some(x), Some(y)) => {
            if y.1 < x.1 || (y.1 == x.1 && y.0 < x.0) {
                Some(y)
            } else {
                Some(x)
            }
        }
        (Some(x), None) => Some(x),
        (None, other) => other,
    }
}

/// Whether a line stands before another, which may be none.
fn is_before(line: u32, other: Option<u32>) -> bool
    ensures { result ≡ is_before line other }
{
    match other {
        Some(other) => line < other,
        None => true,
    }
}

//! A schedule that breaks a law, made small: what can be taken out of it is, as long as the law stays broken.
//!
//! Steps are taken out by Zeller and Hildebrandt's delta debugging: halves, quarters, and so on down to single ones.
//! Then pairs are, and steps whose packets others sent as well. Where nothing more can be taken out, other runs are
//! looked at that begin in the same way.

use crate::aside::{hasten, put_others, run_aside};
use crate::error::SearchError;
use crate::schedule::{Act, Body, Schedule};
use crate::search::Search;
use std::alloc::Global;

/// The most rounds through all that can be made smaller.
const MOST_ROUNDS: u32 = 16;

/// The body of the first cast or send; those of the next ones follow it.
const FIRST_BODY: u8 = b'a';

/// How many runs that begin as the least one are looked at before it is taken, since it became smaller; how many of
/// them that break the law are made small; and how many there are in all.
const MOST_TRIES: u32 = 300;

const MOST_BREACHES: u32 = 20;

const MOST_RUNS: u32 = 1500;

/// The most steps of which pairs are tried, and beside which other runs are looked at.
const MOST_PAIRED: usize = 48;

/// Makes the schedule of a run that breaks the law small: it still breaks it.
pub(crate) fn reduce(
    search: &mut Search,
    number: u64,
    least: &mut Schedule,
) -> Result<(), SearchError> {
    shrink(search, least)?;
    let mut tries = MOST_TRIES;
    let mut breaches = MOST_BREACHES;
    for turn in 0..MOST_RUNS {
        if tries == 0 || breaches == 0 || least.steps.len() > MOST_PAIRED {
            break;
        }
        tries -= 1;
        let number = number
            .wrapping_mul(u64::from(MOST_RUNS))
            .wrapping_add(u64::from(turn));
        let Some(mut other) = run_aside(search, number, least)? else {
            continue;
        };
        breaches -= 1;
        shrink(search, &mut other)?;
        if is_smaller(&other, least) {
            *least = other;
            tries = MOST_TRIES;
            breaches = MOST_BREACHES;
        }
    }
    Ok(())
}

/// Whether one schedule has fewer steps than another, or as many and fewer members.
fn is_smaller(one: &Schedule, other: &Schedule) -> bool {
    let (mine, yours) = (one.steps.len(), other.steps.len());
    mine < yours || (mine == yours && one.members < other.members)
}

/// Makes a schedule that breaks the law small, as far as steps can be taken out of it.
fn shrink(search: &mut Search, least: &mut Schedule) -> Result<(), SearchError> {
    cut_off(search, least)?;
    thin_out(search, least)?;
    for _ in 0..MOST_ROUNDS {
        if !make_smaller(search, least)? {
            break;
        }
    }
    Ok(())
}

/// Tries all ways to make a schedule smaller, and answers whether one did.
fn make_smaller(search: &mut Search, least: &mut Schedule) -> Result<bool, SearchError> {
    let members = leave_out_members(search, least)?;
    let bodies = shorten_bodies(search, least)?;
    let moments = lower_moments(search, least)?;
    let steps = take_out(search, least, 1)?;
    let pairs = take_out_pairs(search, least)?;
    let others = put_others(search, least)?;
    let sooner = hasten(search, least)?;
    name_bodies(search, least)?;
    Ok(members || bodies || moments || steps || pairs || others || sooner)
}

/// Takes another schedule in place of the least one, if it breaks the law too.
pub(crate) fn try_out(
    search: &mut Search,
    least: &mut Schedule,
    other: Schedule,
) -> Result<bool, SearchError> {
    if !search.breaks(&other)? {
        return Ok(false);
    }
    *least = other;
    Ok(true)
}

/// Puts another act at a place, if the law stays broken.
fn try_act(
    search: &mut Search,
    least: &mut Schedule,
    place: usize,
    act: Act,
) -> Result<bool, SearchError> {
    let Some(old) = replace_act(least, place, act) else {
        return Ok(false);
    };
    if search.breaks(least)? {
        return Ok(true);
    }
    replace_act(least, place, old);
    Ok(false)
}

/// Puts another act at a place, and answers the one that was there.
fn replace_act(schedule: &mut Schedule, place: usize, act: Act) -> Option<Act> {
    match schedule.steps.get_mut(place) {
        Some(step) => {
            let old = step.act;
            step.act = act;
            Some(old)
        }
        None => None,
    }
}

/// Cuts off what stands after the breach.
fn cut_off(search: &mut Search, least: &mut Schedule) -> Result<(), SearchError> {
    let mut low = 0;
    let mut high = least.steps.len();
    for _ in 0..usize::BITS {
        if low >= high {
            break;
        }
        let middle = low + (high - low) / 2;
        if search.breaks_before(least, middle)? {
            high = middle;
        } else {
            low = middle + 1;
        }
    }
    if search.breaks_before(least, high)? {
        least.steps.truncate(high);
    }
    Ok(())
}

/// Takes out steps in ever smaller groups.
fn thin_out(search: &mut Search, least: &mut Schedule) -> Result<(), SearchError> {
    let mut size = least.steps.len() / 2;
    for _ in 0..usize::BITS {
        if size == 0 {
            break;
        }
        take_out(search, least, size)?;
        size /= 2;
    }
    Ok(())
}

/// Takes out groups of this many steps, the last first, and answers whether any could be taken out.
fn take_out(search: &mut Search, least: &mut Schedule, size: usize) -> Result<bool, SearchError> {
    let mut is_less = false;
    let mut end = least.steps.len();
    for _ in 0..least.steps.len() {
        if end == 0 {
            break;
        }
        let start = end.saturating_sub(size);
        let other = without(search.alloc(), least, start, end)?;
        is_less |= try_out(search, least, other)?;
        end = start;
    }
    Ok(is_less)
}

/// Takes out pairs of steps, where there aren't too many, and answers whether any could be taken out.
fn take_out_pairs(search: &mut Search, least: &mut Schedule) -> Result<bool, SearchError> {
    if least.steps.len() > MOST_PAIRED {
        return Ok(false);
    }
    let mut is_less = false;
    for second in (0..least.steps.len()).rev() {
        for first in (0..second).rev() {
            let other = without(search.alloc(), least, second, second + 1)?;
            let other = without(search.alloc(), &other, first, first + 1)?;
            is_less |= try_out(search, least, other)?;
        }
    }
    Ok(is_less)
}

/// A schedule without the steps from one place to another.
pub(crate) fn without(
    alloc: Global,
    schedule: &Schedule,
    start: usize,
    end: usize,
) -> Result<Schedule, SearchError> {
    let all = schedule.steps.as_slice();
    let (start, end) = (start.min(all.len()), end.min(all.len()));
    let mut steps = Vec::with_capacity(alloc, all.len())?;
    steps.extend_from_slice(&all[..start])?;
    steps.extend_from_slice(&all[end..])?;
    Ok(Schedule {
        members: schedule.members,
        names: schedule.names,
        steps,
    })
}

/// Leaves out members with all that happens to them, and answers whether any could be left out.
fn leave_out_members(search: &mut Search, least: &mut Schedule) -> Result<bool, SearchError> {
    let mut is_less = false;
    for member in (0..least.members).rev() {
        if least.members > 1 {
            let other = without_member(search.alloc(), least, member)?;
            is_less |= try_out(search, least, other)?;
        }
    }
    Ok(is_less)
}

/// A schedule without a member: those after it take its number and the next ones.
fn without_member(alloc: Global, schedule: &Schedule, member: u8) -> Result<Schedule, SearchError> {
    let mut steps = Vec::with_capacity(alloc, schedule.steps.len())?;
    for step in schedule.steps.as_slice() {
        if let Some(left) = step.without(member) {
            steps.push(left)?;
        }
    }
    Ok(Schedule {
        members: schedule.members.saturating_sub(1),
        names: schedule.names,
        steps,
    })
}

/// Makes bodies shorter, and answers whether any could be made shorter.
fn shorten_bodies(search: &mut Search, least: &mut Schedule) -> Result<bool, SearchError> {
    let mut is_less = false;
    for place in 0..least.steps.len() {
        is_less |= shorten(search, least, place)?;
    }
    Ok(is_less)
}

/// Makes the body that is cast at a place as short as it can be.
fn shorten(search: &mut Search, least: &mut Schedule, place: usize) -> Result<bool, SearchError> {
    let Some(act) = act_at(least, place) else {
        return Ok(false);
    };
    let Some(body) = act.body() else {
        return Ok(false);
    };
    for count in 1..body.count {
        let shorter = act.with_body(Body { count, ..body });
        if try_act(search, least, place, shorter)? {
            return Ok(true);
        }
    }
    Ok(false)
}

/// Lets bodies begin with the letters from `a` on, if the law stays broken.
fn name_bodies(search: &mut Search, least: &mut Schedule) -> Result<(), SearchError> {
    let mut other = without(search.alloc(), least, 0, 0)?;
    put_letters(&mut other);
    try_out(search, least, other)?;
    Ok(())
}

fn put_letters(schedule: &mut Schedule) {
    let mut first = FIRST_BODY;
    for step in schedule.steps.iter_mut() {
        if let Some(body) = step.act.body() {
            step.act = step.act.with_body(Body { first, ..body });
            first = first.wrapping_add(1);
        }
    }
}

/// Lowers moments, and answers whether any could be lowered.
fn lower_moments(search: &mut Search, least: &mut Schedule) -> Result<bool, SearchError> {
    let mut is_less = false;
    for place in 0..least.steps.len() {
        is_less |= lower(search, least, place)?;
    }
    Ok(is_less)
}

/// Lowers the moment at a place as far as halving finds.
fn lower(search: &mut Search, least: &mut Schedule, place: usize) -> Result<bool, SearchError> {
    let Some(Act::Tick(moment)) = act_at(least, place) else {
        return Ok(false);
    };
    let mut low = 0;
    let mut high = moment;
    for _ in 0..u32::BITS {
        if low >= high {
            break;
        }
        let middle = low + (high - low) / 2;
        if try_act(search, least, place, Act::Tick(middle))? {
            high = middle;
        } else {
            low = middle + 1;
        }
    }
    Ok(high < moment)
}

/// What happens at a place.
fn act_at(schedule: &Schedule, place: usize) -> Option<Act> {
    match schedule.steps.get(place) {
        Some(step) => Some(step.act),
        None => None,
    }
}

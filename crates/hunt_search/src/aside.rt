//! What is beside a schedule that breaks a law: the same steps with other packets or in another order, and runs that
//! begin in the same way.

use crate::error::SearchError;
use crate::random::Random;
use crate::reduce::{try_out, without};
use crate::schedule::{Act, Course, Schedule, Source, Step};
use crate::search::Search;
use std::alloc::Global;

/// The most steps of which others take the place.
const MOST_REPLACED: usize = 64;

/// By how many steps at most a run that begins as another is longer.
const MOST_MORE: u32 = 12;

/// Takes out steps whose packets are given, where those of another step can be given in their place, and answers
/// whether any could be taken out.
pub(crate) fn put_others(search: &mut Search, least: &mut Schedule) -> Result<bool, SearchError> {
    if least.steps.len() > MOST_REPLACED {
        return Ok(false);
    }
    let mut is_less = false;
    for place in (0..least.steps.len()).rev() {
        is_less |= put_another(search, least, place)?;
    }
    Ok(is_less)
}

/// Takes out the step at a place, where the packets of another step can be given in place of its own.
fn put_another(
    search: &mut Search,
    least: &mut Schedule,
    place: usize,
) -> Result<bool, SearchError> {
    let Some(gone) = step_at(least, place) else {
        return Ok(false);
    };
    search.breaks(least)?;
    let counts = search.counts()?;
    if count_of(counts.as_slice(), gone.name) == 0 {
        return Ok(false);
    }
    for from in 0..least.steps.len() {
        let Some(step) = step_at(least, from) else {
            return Ok(false);
        };
        let count = count_of(counts.as_slice(), step.name);
        if count > 0 && step.name != gone.name {
            let mut other = without(search.alloc(), least, place, place.saturating_add(1))?;
            give_others(&mut other, gone.name, step.name, count);
            if try_out(search, least, other)? {
                return Ok(true);
            }
        }
    }
    Ok(false)
}

/// How many packets the step of a name sent.
fn count_of(counts: &[u32], name: u32) -> u32 {
    match counts.get(name as usize) {
        Some(count) => *count,
        None => 0,
    }
}

/// The step at a place.
fn step_at(schedule: &Schedule, place: usize) -> Option<Step> {
    schedule.steps.get(place).copied()
}

/// Gives packets of a step that sent this many in place of those of another.
fn give_others(schedule: &mut Schedule, gone: u32, name: u32, count: u32) {
    for step in schedule.steps.iter_mut() {
        if let Act::Give(source) = step.act
            && source.step == gone
        {
            step.act = Act::Give(Source {
                step: name,
                place: source.place.min(count.saturating_sub(1)),
            });
        }
    }
}

/// Lets packets come as soon as they were sent, and answers whether any comes sooner.
pub(crate) fn hasten(search: &mut Search, least: &mut Schedule) -> Result<bool, SearchError> {
    let mut is_sooner = false;
    for place in 0..least.steps.len() {
        is_sooner |= hasten_at(search, least, place)?;
    }
    Ok(is_sooner)
}

/// Lets the packet that comes at a place come as soon as it was sent, after others of the same step.
fn hasten_at(search: &mut Search, least: &mut Schedule, place: usize) -> Result<bool, SearchError> {
    let Some(step) = step_at(least, place) else {
        return Ok(false);
    };
    let Act::Give(source) = step.act else {
        return Ok(false);
    };
    let sooner = soonest(least, source.step);
    if sooner >= place {
        return Ok(false);
    }
    let other = moved(search.alloc(), least, place, sooner)?;
    try_out(search, least, other)
}

/// The place after the step of a name and the steps after it by which its packets come; the end where there is none.
fn soonest(schedule: &Schedule, name: u32) -> usize {
    let mut is_sent = false;
    for place in 0..schedule.steps.len() {
        let step = schedule.steps[place];
        if is_sent && !gives_of(step.act, name) {
            return place;
        }
        is_sent |= step.name == name;
    }
    schedule.steps.len()
}

/// Whether a packet of the step of a name comes.
fn gives_of(act: Act, name: u32) -> bool {
    match act {
        Act::Give(source) => source.step == name,
        _ => false,
    }
}

/// A schedule in which the step at a place stands at an earlier one.
fn moved(
    alloc: Global,
    schedule: &Schedule,
    place: usize,
    sooner: usize,
) -> Result<Schedule, SearchError> {
    let all = schedule.steps.as_slice();
    let place = place.min(all.len());
    let after = place.saturating_add(1).min(all.len());
    let sooner = sooner.min(place);
    let mut steps = Vec::with_capacity(alloc, all.len())?;
    steps.extend_from_slice(&all[..sooner])?;
    steps.extend_from_slice(&all[place..after])?;
    steps.extend_from_slice(&all[sooner..place])?;
    steps.extend_from_slice(&all[after..])?;
    Ok(Schedule {
        members: schedule.members,
        names: schedule.names,
        steps,
    })
}

/// A run, drawn from this number, that begins with some of the steps of a schedule, has few more than that and breaks
/// the law, if this one does.
pub(crate) fn run_aside(
    search: &mut Search,
    number: u64,
    least: &mut Schedule,
) -> Result<Option<Schedule>, SearchError> {
    name_by_place(search.alloc(), least)?;
    let mut random = Random::of(number);
    let count = least.steps.len();
    let kept = random.place(count.saturating_add(1)).min(count);
    let more = number_of(count - kept).saturating_mul(2);
    let more = more.saturating_add(random.below(MOST_MORE));
    let course = Course {
        first: &least.steps[..kept],
        events: number_of(kept).saturating_add(more),
    };
    let other = search.follow(number, least.members, course)?;
    if search.is_broken(other.members)? {
        Ok(Some(other))
    } else {
        Ok(None)
    }
}

/// A count as a number of events.
fn number_of(count: usize) -> u32 {
    u32::try_from(count).unwrap_or(u32::MAX)
}

/// Names each step by its place, and packets by these names. A packet of a step that isn't there is named by none.
fn name_by_place(alloc: Global, schedule: &mut Schedule) -> Result<(), SearchError> {
    let mut places = vec![in alloc; u32::MAX; schedule.names as usize]?;
    let mut name = 0u32;
    for step in schedule.steps.iter_mut() {
        if let Some(place) = places.get_mut(step.name as usize) {
            *place = name;
        }
        step.name = name;
        if let Act::Give(source) = step.act {
            step.act = Act::Give(Source {
                step: name_of(places.as_slice(), source.step),
                ..source
            });
        }
        name = name.saturating_add(1);
    }
    schedule.names = name;
    Ok(())
}

/// The new name of a step.
fn name_of(places: &[u32], name: u32) -> u32 {
    match places.get(name as usize) {
        Some(place) => *place,
        None => u32::MAX,
    }
}

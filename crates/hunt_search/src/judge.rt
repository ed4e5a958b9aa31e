//! Whether a run broke a law of the group.

use crate::error::SearchError;
use crate::notes::{Content, Deed, Name, Note};
use audit_mean::Law;
use std::alloc::Global;

/// A stay of a member in a view: the first has no name, and the last no next view. What it delivered stands in a list,
/// from one place to another.
#[derive(Clone, Copy)]
struct Stay {
    member: u8,
    name: Option<Name>,
    next: Option<Name>,
    from: usize,
    to: usize,
}

/// The stays of all members, how many members these are, and what was delivered in the stays.
#[derive(Drop)]
struct Stays {
    members: u8,
    stays: Vec<Stay>,
    contents: Vec<Content>,
}

/// Whether the notes of a group of this many members break a law: if they do, so does the report, unless two bodies
/// have the same number.
pub(crate) fn is_broken(
    alloc: Global,
    law: Law,
    members: u8,
    notes: &[Note],
) -> Result<bool, SearchError> {
    let mut all = Stays {
        members,
        stays: Vec::new(alloc),
        contents: Vec::new(alloc),
    };
    put_all(&mut all, notes)?;
    let mut bodies = Vec::new(alloc);
    any_differ(law, &all, &mut bodies)
}

/// Puts the stays of all members, one member after the other.
fn put_all(all: &mut Stays, notes: &[Note]) -> Result<(), SearchError> {
    for member in 0..all.members {
        put_stays(all, member, notes)?;
    }
    Ok(())
}

/// Puts the stays of a member after those of others.
fn put_stays(all: &mut Stays, member: u8, notes: &[Note]) -> Result<(), SearchError> {
    let mut now = Some(begun(all, member, None));
    for note in notes {
        if note.member == member {
            now = follow(all, now, note)?;
        }
    }
    put_ended(all, now, None)
}

/// A stay that begins after all that was delivered.
fn begun(all: &Stays, member: u8, name: Option<Name>) -> Stay {
    let from = all.contents.len();
    Stay {
        member,
        name,
        next: None,
        from,
        to: from,
    }
}

/// The stay in which a member is after one more note.
fn follow(all: &mut Stays, now: Option<Stay>, note: &Note) -> Result<Option<Stay>, SearchError> {
    match note.deed {
        Deed::Delivered(content) => {
            if now.is_some() {
                all.contents.push(content)?;
            }
            Ok(now)
        }
        Deed::Entered(name) => {
            put_ended(all, now, Some(name))?;
            Ok(Some(begun(all, note.member, Some(name))))
        }
        Deed::Left => {
            put_ended(all, now, None)?;
            Ok(None)
        }
    }
}

/// Puts a stay that ends after the others.
fn put_ended(all: &mut Stays, now: Option<Stay>, next: Option<Name>) -> Result<(), SearchError> {
    if let Some(stay) = now {
        let to = all.contents.len();
        all.stays.push(Stay { next, to, ..stay })?;
    }
    Ok(())
}

/// Whether two stays of different members, in one view, differ in what a law asks of them.
fn any_differ(law: Law, all: &Stays, bodies: &mut Vec<u64>) -> Result<bool, SearchError> {
    for second in 0..all.stays.len() {
        for first in 0..second {
            let (one, other) = (all.stays[first], all.stays[second]);
            if one.member != other.member
                && one.name == other.name
                && differ(law, all, one, other, bodies)?
            {
                return Ok(true);
            }
        }
    }
    Ok(false)
}

/// Whether two stays in one view differ in what a law asks of them.
fn differ(
    law: Law,
    all: &Stays,
    one: Stay,
    other: Stay,
    bodies: &mut Vec<u64>,
) -> Result<bool, SearchError> {
    let (mine, yours) = (delivered(all, one), delivered(all, other));
    match law {
        Law::Total => Ok(is_other_order(mine, yours)),
        Law::Sender => senders_differ(all.members, mine, yours, bodies),
        Law::Same => Ok(one.next.is_some() && one.next == other.next && are_others(mine, yours)),
    }
}

/// What was delivered in a stay.
fn delivered<'a>(all: &'a Stays, stay: Stay) -> &'a [Content] {
    let to = stay.to.min(all.contents.len());
    &all.contents[stay.from.min(to)..to]
}

/// Whether two lists differ at a place that both have.
fn is_other_order(mine: &[Content], yours: &[Content]) -> bool {
    for place in 0..mine.len().min(yours.len()) {
        if mine[place] != yours[place] {
            return true;
        }
    }
    false
}

/// Whether two lists differ at a place that both have among the casts of one peer.
fn senders_differ(
    members: u8,
    mine: &[Content],
    yours: &[Content],
    bodies: &mut Vec<u64>,
) -> Result<bool, SearchError> {
    if !is_other_order(mine, yours) {
        return Ok(false);
    }
    for peer in 0..members {
        gather(u32::from(peer), mine, bodies)?;
        if is_other_of(u32::from(peer), bodies, yours) {
            return Ok(true);
        }
    }
    Ok(false)
}

/// The bodies of a peer's casts.
fn gather(peer: u32, contents: &[Content], bodies: &mut Vec<u64>) -> Result<(), SearchError> {
    bodies.clear();
    for content in contents {
        if content.peer == peer {
            bodies.push(content.body)?;
        }
    }
    Ok(())
}

/// Whether the bodies of a peer's casts differ from these at a place that both have.
fn is_other_of(peer: u32, bodies: &[u64], contents: &[Content]) -> bool {
    let mut place = 0;
    for content in contents {
        if content.peer == peer {
            if place >= bodies.len() {
                return false;
            }
            if bodies[place] != content.body {
                return true;
            }
            place += 1;
        }
    }
    false
}

/// Whether something stands in one list more often than in the other.
fn are_others(mine: &[Content], yours: &[Content]) -> bool {
    if mine.len() != yours.len() {
        return true;
    }
    is_other_order(mine, yours)
        && mine.iter().any(|content| how_often(mine, *content) != how_often(yours, *content))
}

/// How often a list has something.
fn how_often(contents: &[Content], wanted: Content) -> usize {
    contents
        .iter()
        .filter(|content| **content == wanted)
        .count()
}

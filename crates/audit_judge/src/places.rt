//! The places of deliveries in their lists.
ghost use Rattle.std.specs.Prelude.{◌≡◌, ◌<◌, ◌^◌, length, map, unwrap_or, [], IfOk};
ghost use Rattle.std.specs.HashMap as hash;
ghost use Rattle.audit_mean.specs.Clash as spec;
ghost use Rattle.audit_judge.specs.Entries.{entry_shown};
ghost use Rattle.audit_judge.specs.Places.{Lengthens, list_key, lists_shown, placed_shown, same_key, source_of};

use crate::segments::Entry;
use std::alloc::{AllocError, Global};
use std::collections::HashMap;

/// The lists that are compared: a segment's deliveries from each peer by itself, or all of them.
#[derive(Clone, Copy)]
pub(crate) enum Lists {
    OfEachPeer,
    Whole,
}

impl Lists {
    /// The peer whose list a delivery is in, where each peer has its list.
    pub(crate) fn source(self, entry: &Entry<'_>) -> Option<u32>
        ensures { result ≡ source_of (lists_shown self) (entry_shown entry.now) }
    {
        match self {
            Lists::OfEachPeer => Some(entry.peer),
            Lists::Whole => None,
        }
    }
}

/// What tells a list of one member from the others: the line that began its segment, and the peer
/// where each has its list.
#[derive(Clone, Copy, PartialEq, Eq, Hash)]
struct ListKey {
    member: u8,
    began: u32,
    peer: Option<u32>,
}

/// A delivery with its place in its list, from 0.
#[derive(Clone, Copy)]
pub(crate) struct Placed<'a> {
    pub entry: Entry<'a>,
    pub place: u32,
}

/// The deliveries of a report with their places.
pub(crate) fn place<'a>(
    alloc: Global,
    lists: Lists,
    entries: &[Entry<'a>],
) -> Result<Vec<Placed<'a>>, AllocError>
    requires { length entries.now < 2 ^ 32 }
    ensures { IfOk result
        (λ placed. map placed_shown placed.items ≡
        spec.placed_after (lists_shown lists) [] (map entry_shown entries.now)) }
{
    let mut counts = HashMap::new(alloc);
    let mut placed = Vec::new(alloc);
    for entry in entries {
        let place = next_place(&mut counts, list_key(lists, entry))?;
        placed.push(Placed {
            entry: *entry,
            place,
        })?;
    }
    Ok(placed)
}

fn list_key(lists: Lists, entry: &Entry<'_>) -> ListKey
    ensures { result ≡ list_key (lists_shown lists) (entry_shown entry.now) }
{
    ListKey {
        member: entry.member,
        began: entry.segment.began,
        peer: lists.source(entry),
    }
}

/// Answers the length of a list, and makes it longer by one.
fn next_place(counts: &mut HashMap<ListKey, u32>, key: ListKey) -> Result<u32, AllocError>
    requires { unwrap_or (hash.get same_key counts.old key) 0 < 4294967295 }
    ensures { IfOk result (λ place. (place ≡ unwrap_or (hash.get same_key counts.old key) 0) ×
        Lengthens (hash.get same_key counts.old) (hash.get same_key counts.new) key) }
{
    let place = counts.get(&key).copied().unwrap_or(0);
    counts.insert(key, place + 1)?;
    Ok(place)
}

//! The least clash of two members on the order of deliveries.
ghost use Rattle.std.specs.Prelude.{◌≡◌, ◌<◌, ◌^◌, length, map, option_map, [], IfOk};
ghost use Rattle.std.specs.HashMap as hash;
ghost use Rattle.std.specs.List.{find};
ghost use Rattle.audit_mean.specs.Segment as segment;
ghost use Rattle.audit_mean.specs.Clash as spec;
ghost use Rattle.audit_mean.specs.Finding.{least};
ghost use Rattle.audit_judge.specs.Clashes.{IsInOrder, disagrees, seen_with, place_key, same_place_key};
ghost use Rattle.audit_judge.specs.Entries.{entry_shown};
ghost use Rattle.audit_judge.specs.Places.{lists_shown, placed_shown};

use crate::places::{Lists, Placed};
use crate::segments::Entry;
use std::alloc::{AllocError, Global};
use std::collections::HashMap;

/// The key of a delivery's place, by which deliveries of several members are compared: the view that names its segment,
/// if one does; the peer whose list it is in, where each peer has a list; and its place in that list.
#[derive(Clone, Copy, PartialEq, Eq, Hash)]
struct PlaceKey {
    view: Option<(u32, u32)>,
    peer: Option<u32>,
    place: u32,
}

/// The deliveries seen at a place, among which no two members disagree: the first of them, and whether another one is
/// another member's or says something else. At most one of the two is so.
#[derive(Clone, Copy)]
struct Seen<'a> {
    first: Entry<'a>,
    more_members: bool,
    more_contents: bool,
}

/// The numbers of the lines of the least clash: its second number is the least of all clashes, and its first the least
/// of those with this second number.
pub(crate) fn least_clash<'a>(
    alloc: Global,
    lists: Lists,
    placed: &[Placed<'a>],
) -> Result<Option<(u32, u32)>, AllocError>
    requires { IsInOrder 0 (map placed_shown placed.now) }
    ensures { IfOk result
        (λ found. found ≡ least (spec.clashes_after (lists_shown lists) [] (map placed_shown placed.now))) }
{
    let mut agreed = HashMap::new(alloc);
    for (index, entry) in placed.iter().enumerate() {
        let key = place_key(lists, entry);
        let seen = seen_at(&agreed, key);
        if disagrees(seen, &entry.entry) {
            return Ok(earliest(lists, entry, &placed[..index]));
        }
        agreed.insert(key, seen_with(seen, entry.entry))?;
    }
    Ok(None)
}

fn place_key(lists: Lists, placed: &Placed<'_>) -> PlaceKey
    ensures { result ≡ place_key (lists_shown lists) (placed_shown placed.now) }
{
    PlaceKey {
        view: placed.entry.segment.view,
        peer: lists.source(&placed.entry),
        place: placed.place,
    }
}

fn seen_at<'a>(agreed: &HashMap<PlaceKey, Seen<'a>>, key: PlaceKey) -> Option<Seen<'a>>
    ensures { result ≡ hash.get same_place_key agreed.now key }
{
    agreed.get(&key).copied()
}

/// Whether another member said something else at the place.
fn disagrees(seen: Option<Seen<'_>>, entry: &Entry<'_>) -> bool
    ensures { result ≡ disagrees seen.entry (entry_shown entry.now) }
{
    match seen {
        Some(seen) => {
            (seen.more_members || seen.first.member != entry.member)
                && (seen.more_contents || !same_content(&seen.first, entry))
        }
        None => false,
    }
}

/// What is seen at the place with one more delivery.
fn seen_with<'a>(seen: Option<Seen<'a>>, entry: Entry<'a>) -> Seen<'a>
    ensures { result ≡ seen_with seen.entry entry.entry }
{
    match seen {
        Some(seen) => Seen {
            first: seen.first,
            more_members: seen.more_members || seen.first.member != entry.member,
            more_contents: seen.more_contents || !same_content(&seen.first, &entry),
        },
        None => Seen {
            first: entry,
            more_members: false,
            more_contents: false,
        },
    }
}

fn same_content(a: &Entry<'_>, b: &Entry<'_>) -> bool
    ensures { result ≡ segment.same_content (entry_shown a.now) (entry_shown b.now) }
{
    a.peer == b.peer && a.body == b.body
}

/// The lines of a delivery and of the first with which it clashes.
fn earliest(lists: Lists, entry: &Placed<'_>, front: &[Placed<'_>]) -> Option<(u32, u32)>
    ensures { result ≡ option_map (spec.lines_at (placed_shown entry.now))
        (find (spec.clashes (lists_shown lists) (placed_shown entry.now)) (map placed_shown front.now)) }
{
    for other in front {
        if clashes(lists, entry, other) {
            return Some((other.entry.line, entry.entry.line));
        }
    }
    None
}

fn clashes(lists: Lists, entry: &Placed<'_>, other: &Placed<'_>) -> bool
    ensures { result ≡ spec.clashes (lists_shown lists) (placed_shown entry.now) (placed_shown other.now) }
{
    place_key(lists, other) == place_key(lists, entry)
        && other.entry.member != entry.entry.member
        && !same_content(&other.entry, &entry.entry)
}

//! How often each content is delivered in a segment.
ghost use Rattle.std.specs.Prelude.{◌≡◌, ◌<◌, map, unwrap_or, [], IfOk};
ghost use Rattle.std.specs.HashMap as hash;
ghost use Rattle.audit_judge.specs.Entries.{entry_shown};
ghost use Rattle.audit_judge.specs.Lacks.{Counts, OneMore, content_of, ranked_after, ranked_shown, same_content_key};

use crate::segments::Entry;
use std::alloc::{AllocError, Global};
use std::collections::HashMap;

/// What a delivery says: the peer whose cast it is, and the body as it is spelled.
#[derive(Clone, Copy, PartialEq, Eq, Hash)]
pub(crate) struct Content<'a> {
    peer: u32,
    body: &'a [u8],
}

/// A delivery with its rank: how many deliveries of the same content come before it in its segment.
#[derive(Clone, Copy)]
pub(crate) struct Ranked<'a> {
    pub entry: Entry<'a>,
    pub place: usize,
}

/// The deliveries of one segment with their ranks.
pub(crate) fn rank<'a>(alloc: Global, entries: &[Entry<'a>]) -> Result<Vec<Ranked<'a>>, AllocError>
    ensures { IfOk result (λ ranked. map ranked_shown ranked.items ≡ ranked_after [] (map entry_shown entries.now)) }
{
    let mut counts = HashMap::new(alloc);
    let mut ranked = Vec::with_capacity(alloc, entries.len())?;
    for entry in entries {
        let place = next_rank(&mut counts, content_of(entry))?;
        ranked.push(Ranked {
            entry: *entry,
            place,
        })?;
    }
    Ok(ranked)
}

/// How often each content comes among the deliveries of a segment.
pub(crate) fn count<'a>(
    alloc: Global,
    deliveries: &[Ranked<'a>],
) -> Result<HashMap<Content<'a>, usize>, AllocError>
    ensures { IfOk result
        (λ counts. Counts (hash.get same_content_key counts)
        (map (λ placed. placed.entry) (map ranked_shown deliveries.now))) }
{
    let mut counts = HashMap::with_capacity(alloc, deliveries.len())?;
    for delivery in deliveries {
        next_rank(&mut counts, content_of(&delivery.entry))?;
    }
    Ok(counts)
}

/// What a delivery says: the peer whose cast it is, and the body as it is spelled.
pub(crate) fn content_of<'a>(entry: &Entry<'a>) -> Content<'a>
    ensures { result ≡ content_of entry.now }
{
    Content {
        peer: entry.peer,
        body: entry.body,
    }
}

/// Answers how often a content came so far, and counts it once more.
fn next_rank<'a>(
    counts: &mut HashMap<Content<'a>, usize>,
    content: Content<'a>,
) -> Result<usize, AllocError>
    requires { unwrap_or (hash.get same_content_key counts.old content) 0 < 18446744073709551615 }
    ensures { IfOk result (λ place. (place ≡ unwrap_or (hash.get same_content_key counts.old content.entry) 0) ×
        OneMore (hash.get same_content_key counts.old) (hash.get same_content_key counts.new) content.entry) }
{
    let place = counts.get(&content).copied().unwrap_or(0);
    counts.insert(content, place + 1)?;
    Ok(place)
}

/// How often a content was counted so far.
pub(crate) fn count_of<'a>(counts: &HashMap<Content<'a>, usize>, content: Content<'a>) -> usize
    ensures { result ≡ unwrap_or (hash.get same_content_key counts.now content.entry) 0 }
{
    counts.get(&content).copied().unwrap_or(0)
}

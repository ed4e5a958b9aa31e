//! The segments that members end by going into a view.
ghost use Rattle.std.specs.Prelude.{◌≡◌, ℕ, ◌==◌, ◌<◌, ◌^◌, ◌++◌, ◌∷◌, if◌then◌else◌, List, nat_eq, length, map};
ghost use Rattle.std.specs.Prelude.{option_map, [], None, IfOk};
ghost use Rattle.std.specs.HashMap as hash;
ghost use Rattle.std.specs.Option.{option_to_list};
ghost use Rattle.audit_mean.specs.Segment.{Numbered};
ghost use Rattle.audit_mean.specs.Lack as spec;
ghost use Rattle.audit_judge.specs.Entries.{Stands, entry_shown, numbered_lines};
ghost use Rattle.audit_judge.specs.Reading.{shown_line};
ghost use Rattle.audit_judge.specs.Lacks.{Holds, ended_shown, held_after, known_segment, list_at, ranked_after};
ghost use Rattle.audit_judge.specs.Lacks.{ranked_shown};

use crate::contents::{Ranked, rank};
use crate::line::LineMeaning;
use crate::segments::{Entry, Segments};
use std::alloc::{AllocError, Global};
use std::collections::HashMap;

/// The view that a member left and the view that it went into, each with its logical time and its mask; `from` is none
/// for a member's first segment.
#[derive(Clone, Copy, PartialEq, Eq, Hash)]
pub(crate) struct Way {
    from: Option<(u32, u32)>,
    to: (u32, u32),
}

/// A segment that a member ended by the `view` line of this number, and the deliveries in it.
#[derive(Drop)]
pub(crate) struct Ended<'a> {
    pub line: u32,
    pub member: u8,
    pub way: Way,
    pub deliveries: Vec<Ranked<'a>>,
}

/// The segments that the members of a report ended by `view` lines, in the order of these.
pub(crate) fn ended_segments<'a>(
    alloc: Global,
    lines: &[LineMeaning<'a>],
) -> Result<Vec<Ended<'a>>, AllocError>
    requires { length lines.now < 2 ^ 32 }
    ensures { IfOk result
        (λ ended. map ended_shown ended.items ≡ map known_segment (spec.ended_after [] (numbered_lines lines.now))) }
{
    let mut segments = Segments::first();
    let mut held = HashMap::new(alloc);
    let mut all = Vec::new(alloc);
    for (index, line) in lines.iter().enumerate() {
        let number = index as u32 + 1;
        let ended = ended_by(alloc, &segments, &held, number, line)?;
        push_some(&mut all, ended)?;
        follow(alloc, &mut held, segments.entry(number, line), line)?;
        segments.advance(number, line);
    }
    Ok(all)
}

/// The segment that a line ends, if it is a `view` line that ends one.
fn ended_by<'a>(
    alloc: Global,
    segments: &Segments,
    held: &HashMap<u8, Vec<Entry<'a>>>,
    number: u32,
    line: &LineMeaning<'a>,
) -> Result<Option<Ended<'a>>, AllocError>
    ensures { IfOk result (λ ended. (before : List Numbered) → Stands segments.now before →
        Holds (hash.get nat_eq held.now) before → option_map ended_shown ended ≡
        option_map known_segment (spec.ended_by before (number, shown_line line.now))) }
{
    let LineMeaning::View(member, ltime, mask) = line else {
        return Ok(None);
    };
    let Some(segment) = segments.of(*member) else {
        return Ok(None);
    };
    let deliveries = rank_at(alloc, held, *member)?;
    Ok(Some(Ended {
        line: number,
        member: *member,
        way: Way {
            from: segment.view,
            to: (*ltime, *mask),
        },
        deliveries,
    }))
}

/// The deliveries of a member's segment with their ranks.
fn rank_at<'a>(
    alloc: Global,
    held: &HashMap<u8, Vec<Entry<'a>>>,
    member: u8,
) -> Result<Vec<Ranked<'a>>, AllocError>
    ensures { IfOk result
        (λ ranked. map ranked_shown ranked.items ≡
        ranked_after [] (map entry_shown (list_at (hash.get nat_eq held.now member)))) }
{
    match held.get(&member) {
        Some(entries) => rank(alloc, entries.as_slice()),
        None => Ok(Vec::new(alloc)),
    }
}

fn push_some<'a>(all: &mut Vec<Ended<'a>>, ended: Option<Ended<'a>>) -> Result<(), AllocError>
    ensures { IfOk result (λ done. all.new.items ≡ all.old.items ++ option_to_list ended.entry) }
{
    if let Some(ended) = ended {
        all.push(ended)?;
    }
    Ok(())
}

/// The deliveries in the segments after a line, which may be a delivery in one.
fn follow<'a>(
    alloc: Global,
    held: &mut HashMap<u8, Vec<Entry<'a>>>,
    entry: Option<Entry<'a>>,
    line: &LineMeaning<'_>,
) -> Result<(), AllocError>
    ensures { IfOk result (λ done. (member : ℕ) → list_at (hash.get nat_eq held.new member) ≡
        held_after entry.entry (shown_line line.now) member (list_at (hash.get nat_eq held.old member))) }
{
    if let Some(entry) = entry {
        add(alloc, held, entry)?;
    } else {
        drop_ended(held, line);
    }
    Ok(())
}

/// One more delivery in its member's segment.
fn add<'a>(
    alloc: Global,
    held: &mut HashMap<u8, Vec<Entry<'a>>>,
    entry: Entry<'a>,
) -> Result<(), AllocError>
    ensures { IfOk result (λ done. (member : ℕ) → list_at (hash.get nat_eq held.new member) ≡
        (if entry.entry.member == member then list_at (hash.get nat_eq held.old member) ++ entry.entry ∷
        [] else list_at (hash.get nat_eq held.old member))) }
{
    let mut entries = match held.remove(&entry.member) {
        Some(entries) => entries,
        None => Vec::new(alloc),
    };
    entries.push(entry)?;
    held.insert(entry.member, entries)?;
    Ok(())
}

/// A segment that a line ends, its deliveries with it.
fn drop_ended<'a>(held: &mut HashMap<u8, Vec<Entry<'a>>>, line: &LineMeaning<'_>)
    ensures { (member : ℕ) → list_at (hash.get nat_eq held.new member) ≡
        held_after None (shown_line line.now) member (list_at (hash.get nat_eq held.old member)) }
{
    match line {
        LineMeaning::View(member, _, _) | LineMeaning::Out(member) => {
            let _ended = held.remove(member);
        }
        _ => {}
    }
}

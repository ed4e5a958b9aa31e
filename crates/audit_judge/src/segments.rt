//! The segments of members, and the deliveries in them.
ghost use Rattle.std.specs.Prelude.{◌≡◌, ◌≢◌, ℕ, ◌+◌, ◌<◌, ◌≤◌, ◌^◌, List, ◌∷◌, [], ◌++◌, length, map, option_map};
ghost use Rattle.std.specs.Prelude.{IfSome, IfOk};
ghost use Rattle.std.specs.Option.{option_to_list};
ghost use Rattle.audit_mean.specs.Segment as spec;
ghost use Rattle.audit_judge.specs.Reading.{shown_line};
ghost use Rattle.audit_judge.specs.Entries.{Stands, entry_shown, numbered_lines, segment_shown, standing};

use crate::line::LineMeaning;
use std::alloc::{AllocError, Global};

/// A segment of a member: the logical time and the mask of the view that it is in, or none for the
/// first, and the number of the line that began it, which is 0 for the first.
#[derive(Clone, Copy)]
pub(crate) struct Segment {
    pub view: Option<(u32, u32)>,
    pub began: u32,
}

/// A delivery of a cast in a segment, with the number of its line. The body is kept as it is spelled.
#[derive(Clone, Copy)]
pub(crate) struct Entry<'a> {
    pub line: u32,
    pub member: u8,
    pub segment: Segment,
    pub peer: u32,
    pub body: &'a [u8],
}

/// The segment that each member is in, if it is in one.
#[derive(Drop)]
pub(crate) struct Segments {
    of_members: [Option<Segment>; 256],
}

impl Segments {
    /// Each member in its first segment, before any line.
    pub(crate) fn first() -> Segments
        ensures { Stands result [] }
    {
        let first = Segment {
            view: None,
            began: 0,
        };
        Segments {
            of_members: [Some(first); 256],
        }
    }

    /// The segment that a member is in, if it is in one.
    pub(crate) fn of(&self, member: u8) -> Option<Segment>
        ensures { option_map segment_shown result ≡ standing self.now member }
    {
        self.of_members[member as usize]
    }

    fn set(&mut self, member: u8, segment: Option<Segment>)
        ensures this { standing self.new member ≡ option_map segment_shown segment }
        ensures others { (m : ℕ) → m ≢ member → standing self.new m ≡ standing self.old m }
    {
        self.of_members[member as usize] = segment;
    }

    /// The segments after a line.
    pub(crate) fn advance(&mut self, number: u32, line: &LineMeaning<'_>)
        ensures this { (m : ℕ) →
            standing self.new m ≡ spec.segment_next m (standing self.old m) (number, shown_line line.now) }
    {
        match line {
            LineMeaning::View(member, ltime, mask) => {
                let segment = Segment {
                    view: Some((*ltime, *mask)),
                    began: number,
                };
                self.set(*member, Some(segment));
            }
            LineMeaning::Out(member) => self.set(*member, None),
            _ => {}
        }
    }

    /// The delivery of a line in a segment, if it is one.
    pub(crate) fn entry<'a>(&self, number: u32, line: &LineMeaning<'a>) -> Option<Entry<'a>>
        ensures { (before : List spec.Numbered) → Stands self.now before → option_map entry_shown result ≡
            spec.entry_after before (number, shown_line line.now) }
    {
        match line {
            LineMeaning::Deliver(member, peer, body) => {
                let segment = self.of(*member)?;
                Some(Entry {
                    line: number,
                    member: *member,
                    segment,
                    peer: *peer,
                    body: *body,
                })
            }
            _ => None,
        }
    }
}

/// The deliveries of a report.
pub(crate) fn entries<'a>(
    alloc: Global,
    lines: &[LineMeaning<'a>],
) -> Result<Vec<Entry<'a>>, AllocError>
    requires { length lines.now < 2 ^ 32 }
    ensures { IfOk result (λ entries. map entry_shown entries.items ≡ spec.entries_of (numbered_lines lines.now)) }
{
    let mut segments = Segments::first();
    let mut entries = Vec::new(alloc);
    for (index, line) in lines.iter().enumerate() {
        let number = index as u32 + 1;
        push_some(&mut entries, segments.entry(number, line))?;
        segments.advance(number, line);
    }
    Ok(entries)
}

fn push_some<'a>(entries: &mut Vec<Entry<'a>>, entry: Option<Entry<'a>>) -> Result<(), AllocError>
    ensures { IfOk result (λ done. entries.new.items ≡ entries.old.items ++ option_to_list entry.entry) }
{
    if let Some(entry) = entry {
        entries.push(entry)?;
    }
    Ok(())
}

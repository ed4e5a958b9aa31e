//! Which segments of a group have a delivery, and the first that lacks it.
ghost use Rattle.std.specs.Prelude.{◌≡◌, if◌then◌else◌, ◌&&◌, map, Some, IfOk};
ghost use Rattle.std.specs.HashMap as hash;
ghost use Rattle.std.specs.List.{list_any};
ghost use Rattle.audit_judge.specs.Lacks.{ended_shown, ranked_shown, same_way};
ghost use Rattle.audit_judge.specs.Marks.{IsClear, IsInLine, Marked, item_for, lack_line, lacking, group_with};
ghost use Rattle.audit_judge.specs.Marks.{mark_with};
ghost use Rattle.audit_judge.specs.Marks.{other_than, same_item, same_item_key, sooner, sooner_in};
ghost use Rattle.audit_judge.specs.declared.ended.Way.{Way};

use crate::contents::{Content, Ranked, content_of};
use crate::ended::{Ended, Way};
use std::alloc::{AllocError, Global};
use std::collections::HashMap;

/// What tells a delivery from the others of its group: its content, and how many of the same content
/// come before it in its segment.
#[derive(Clone, Copy, PartialEq, Eq, Hash)]
struct Item<'a> {
    way: Way,
    content: Content<'a>,
    place: usize,
}

/// Who has an item, among the segments of a group from some segment on: the member of the last segment that has it, and
/// whether another member has it; the line that ended the first segment that has it, and the line that ended the first
/// segment after that one which lacks it.
#[derive(Clone, Copy)]
struct Mark {
    member: u8,
    more_members: bool,
    front: u32,
    gap: Option<u32>,
}

/// The segments of a group from some segment on: the first one's member and the line that ended it,
/// and the line that ended the first of another member.
#[derive(Clone, Copy)]
struct Group {
    member: u8,
    front: u32,
    other: Option<u32>,
}

/// What is known of the segments from some segment on.
#[derive(Drop)]
struct Marks<'a> {
    groups: HashMap<Way, Group>,
    items: HashMap<Item<'a>, Mark>,
}

/// The line that ended the first segment that lacks a delivery of another member's segment in its group.
pub(crate) fn first_lacking<'a>(
    alloc: Global,
    ended: &[Ended<'a>],
) -> Result<Option<u32>, AllocError>
    requires { IsInLine (map ended_shown ended.now) }
    ensures { IfOk result (λ line. IsClear line (map ended_shown ended.now)) }
{
    let marks = mark_all(alloc, ended)?;
    let mut found = None;
    for one in ended {
        found = sooner_in(found, &marks, one);
    }
    Ok(found)
}

fn mark_all<'a>(alloc: Global, ended: &[Ended<'a>]) -> Result<Marks<'a>, AllocError>
    requires { IsInLine (map ended_shown ended.now) }
    ensures { IfOk result
        (λ marks. Marked (hash.get same_item_key marks.items) (hash.get same_way marks.groups)
        (map ended_shown ended.now)) }
{
    let mut groups = HashMap::new(alloc);
    let mut items = HashMap::new(alloc);
    for index in (0..ended.len()).rev() {
        let one = &ended[index];
        let following = group_at(&groups, one.way);
        mark_segment(&mut items, following, one)?;
        groups.insert(one.way, group_with(following, one))?;
    }
    Ok(Marks { groups, items })
}

/// One more segment before those of its group.
fn mark_segment<'a>(
    items: &mut HashMap<Item<'a>, Mark>,
    following: Option<Group>,
    one: &Ended<'a>,
) -> Result<(), AllocError>
    ensures { IfOk result (λ done. (way : Way) (r : Ranked) → hash.get same_item_key items.new (item_for way r) ≡
        (if same_way one.now.way way &&
        list_any (same_item (ranked_shown r)) (map ranked_shown one.now.deliveries.items) then Some
        (mark_with (hash.get same_item_key items.old (item_for way r)) following one.now.member one.now.line) else
        hash.get
        same_item_key items.old (item_for way r))) }
{
    for delivery in &one.deliveries {
        let item = item_of(one.way, delivery);
        let mark = mark_with(mark_at(items, item), following, one);
        items.insert(item, mark)?;
    }
    Ok(())
}

fn item_of<'a>(way: Way, delivery: &Ranked<'a>) -> Item<'a>
    ensures { result ≡ item_for way delivery.now }
{
    Item {
        way,
        content: content_of(&delivery.entry),
        place: delivery.place,
    }
}

fn mark_at<'a>(items: &HashMap<Item<'a>, Mark>, item: Item<'a>) -> Option<Mark>
    ensures { result ≡ hash.get same_item_key items.now item.entry }
{
    items.get(&item).copied()
}

fn group_at(groups: &HashMap<Way, Group>, way: Way) -> Option<Group>
    ensures { result ≡ hash.get same_way groups.now way }
{
    groups.get(&way).copied()
}

/// The mark of an item that this segment has too, before its group.
fn mark_with(mark: Option<Mark>, following: Option<Group>, one: &Ended<'_>) -> Mark
    ensures { result ≡ mark_with mark following one.now.member one.now.line }
{
    match mark {
        Some(mark) if mark.front == one.line => mark,
        Some(mark) => Mark {
            member: mark.member,
            more_members: mark.more_members || mark.member != one.member,
            front: one.line,
            gap: lacking(Some(mark), following),
        },
        None => Mark {
            member: one.member,
            more_members: false,
            front: one.line,
            gap: lacking(None, following),
        },
    }
}

/// The line that ended the first segment of a group that lacks an item.
fn lacking(mark: Option<Mark>, group: Option<Group>) -> Option<u32>
    ensures { result ≡ lacking mark group }
{
    let group = group?;
    match mark {
        Some(mark) if mark.front == group.front => mark.gap,
        _ => Some(group.front),
    }
}

/// The group with one more segment in front.
fn group_with(group: Option<Group>, one: &Ended<'_>) -> Group
    ensures { result ≡ group_with group one.now.member one.now.line }
{
    Group {
        member: one.member,
        front: one.line,
        other: other_than(one.member, group),
    }
}

/// The line that ended the first segment of a group that is of another member.
fn other_than(member: u8, group: Option<Group>) -> Option<u32>
    ensures { result ≡ other_than member group }
{
    let group = group?;
    if group.member == member {
        group.other
    } else {
        Some(group.front)
    }
}

/// The first of a line and the lines that ended segments lacking something that this segment has.
fn sooner_in(found: Option<u32>, marks: &Marks<'_>, one: &Ended<'_>) -> Option<u32>
    ensures { result ≡ sooner_in (hash.get same_item_key marks.now.items) (hash.get same_way marks.now.groups) found
        one.now }
{
    let group = group_at(&marks.groups, one.way);
    let mut found = found;
    for delivery in &one.deliveries {
        let mark = mark_at(&marks.items, item_of(one.way, delivery));
        found = sooner(found, lack_line(mark, group));
    }
    found
}

/// The line that ended the first segment of a group that lacks an item which another member has.
fn lack_line(mark: Option<Mark>, group: Option<Group>) -> Option<u32>
    ensures { result ≡ lack_line mark group }
{
    let mark = mark?;
    if mark.more_members {
        lacking(Some(mark), group)
    } else {
        other_than(mark.member, group)
    }
}

fn sooner(a: Option<u32>, b: Option<u32>) -> Option<u32>
    ensures { result ≡ sooner a b }
{
    match (a, b) {
        (Some(x), Some(y)) if y < x => Some(y),
        (Some(x), _) => Some(x),
        (None, other) => other,
    }
}

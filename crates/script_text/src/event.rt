//! The lines of a script, one by one.
ghost use Rattle.std.specs.Prelude.{◌<◌, ◌≤◌, IfOk};
ghost use Rattle.script_mean.specs.Event as spec;
ghost use Rattle.script_mean.specs.Script.{event_of, in_form};
ghost use Rattle.script_mean.specs.Words.{words_of};
ghost use Rattle.script_text.specs.Answer.{Answers};
ghost use Rattle.script_text.specs.Reading.{IsBelow, IsEvent, Says, numbered_line, words_left};
ghost use Rattle.msg_core.specs.View.{most_members};

use crate::error::{LineError, ScriptError};
use crate::lines::NumberedLine;
use crate::words::Words;
use msg_core::{LAST_MEMBER, MOST_MEMBERS};
use script_mean::{GroupLine, ScriptEvent};
use std::alloc::Global;

/// What the first line of a script says.
pub(crate) fn group_line(line: NumberedLine<'_>) -> Result<GroupLine, ScriptError>
    ensures said { Answers (in_form line.entry.number (spec.said_by spec.group_line line.entry.text.now)) result }
    ensures bounds { IfOk result (λ said. (1 ≤ said.members) × (said.members ≤ most_members)) }
{
    match group(Words::new(line.text)) {
        Ok(group_line) => Ok(group_line),
        Err(error) => Err(error.at(line.number)),
    }
}

fn group(mut words: Words<'_>) -> Result<GroupLine, LineError>
    ensures said { Says (spec.group_line (words_left words.entry)) result }
    ensures bounds { IfOk result (λ said. (1 ≤ said.members) × (said.members ≤ most_members)) }
{
    words.the_word(b"group")?;
    let group = words.number()?;
    words.the_word(b"stamp")?;
    let stamp = words.number()?;
    words.the_word(b"members")?;
    let members = words.number_within(1, u32::from(MOST_MEMBERS))? as u8;
    words.end()?;
    Ok(GroupLine {
        group,
        stamp,
        members,
    })
}

/// The event of a line of a script with this number of members.
pub(crate) fn event_on(
    alloc: Global,
    members: u8,
    line: NumberedLine<'_>,
) -> Result<ScriptEvent, ScriptError>
    ensures said { Answers (event_of members (numbered_line line.entry)) result }
    ensures of_member { IfOk result (λ event. spec.member_of event < members) }
{
    match event(alloc, members, line.text) {
        Ok(event) => Ok(event),
        Err(error) => Err(error.at(line.number)),
    }
}

/// The event of a line. Most lines give or cast.
#[inline(always)]
fn event(alloc: Global, members: u8, line: &[u8]) -> Result<ScriptEvent, LineError>
    ensures { IsEvent members (spec.event_line (words_of line.now)) result }
{
    if let [b'g', b'i', b'v', b'e', b' ', following @ ..] = line {
        return give(members, Words::new(following));
    }
    if let [b'c', b'a', b's', b't', b' ', following @ ..] = line {
        return cast(alloc, members, Words::new(following));
    }
    any_event(alloc, members, Words::new(line))
}

/// The event of a line by its first word, whichever that is.
#[inline(never)]
fn any_event(alloc: Global, members: u8, mut words: Words<'_>) -> Result<ScriptEvent, LineError>
    ensures { IsEvent members (spec.event_line (words_left words.entry)) result }
{
    let verb = words.next().ok_or(LineError::Form)?;
    if verb == b"cast".as_slice() {
        cast(alloc, members, words)
    } else if verb == b"send".as_slice() {
        send(alloc, members, words)
    } else if verb == b"leave".as_slice() {
        leave(members, words)
    } else if verb == b"tick".as_slice() {
        tick(members, words)
    } else if verb == b"give".as_slice() {
        give(members, words)
    } else if verb == b"raw".as_slice() {
        raw(alloc, members, words)
    } else if verb == b"state".as_slice() {
        state(members, words)
    } else {
        Err(LineError::Form)
    }
}

/// The cast that a line asks for, from the words after its first: a member and a body.
pub(crate) fn cast(
    alloc: Global,
    members: u8,
    mut words: Words<'_>,
) -> Result<ScriptEvent, LineError>
    ensures { IsEvent members (spec.cast_line (words_left words.entry)) result }
{
    let member = words.number()?;
    let body = words.body(alloc)?;
    words.end()?;
    Ok(ScriptEvent::Cast(member_below(members, member)?, body))
}

/// The send that a line asks for, from the words after its first: a member, the rank that it goes to, and a body.
pub(crate) fn send(
    alloc: Global,
    members: u8,
    mut words: Words<'_>,
) -> Result<ScriptEvent, LineError>
    ensures { IsEvent members (spec.send_line (words_left words.entry)) result }
{
    let member = words.number()?;
    let rank = words.number_within(0, u32::from(LAST_MEMBER))?;
    let body = words.body(alloc)?;
    words.end()?;
    Ok(ScriptEvent::Send(member_below(members, member)?, rank, body))
}

/// The leave that a line asks for, from the word after its first: a member.
pub(crate) fn leave(members: u8, mut words: Words<'_>) -> Result<ScriptEvent, LineError>
    ensures { IsEvent members (spec.leave_line (words_left words.entry)) result }
{
    let member = words.number()?;
    words.end()?;
    Ok(ScriptEvent::Leave(member_below(members, member)?))
}

fn tick(members: u8, mut words: Words<'_>) -> Result<ScriptEvent, LineError>
    ensures { IsEvent members (spec.tick_line (words_left words.entry)) result }
{
    let member = words.number()?;
    let time = words.number()?;
    words.end()?;
    Ok(ScriptEvent::Tick(member_below(members, member)?, time))
}

#[inline(always)]
fn give(members: u8, mut words: Words<'_>) -> Result<ScriptEvent, LineError>
    ensures { IsEvent members (spec.give_line (words_left words.entry)) result }
{
    let packet = words.number()?;
    let member = words.number()?;
    words.end()?;
    Ok(ScriptEvent::Give(packet, member_below(members, member)?))
}

fn raw(alloc: Global, members: u8, mut words: Words<'_>) -> Result<ScriptEvent, LineError>
    ensures { IsEvent members (spec.raw_line (words_left words.entry)) result }
{
    let member = words.number()?;
    let body = words.body(alloc)?;
    words.end()?;
    Ok(ScriptEvent::Raw(member_below(members, member)?, body))
}

fn state(members: u8, mut words: Words<'_>) -> Result<ScriptEvent, LineError>
    ensures { IsEvent members (spec.state_line (words_left words.entry)) result }
{
    let member = words.number()?;
    words.end()?;
    Ok(ScriptEvent::Show(member_below(members, member)?))
}

fn member_below(members: u8, member: u32) -> Result<u8, LineError>
    ensures { IsBelow members member result }
{
    if member < u32::from(members) {
        Ok(member as u8)
    } else {
        Err(LineError::NoMember)
    }
}

//! The lines of a plan, one by one.
ghost use Rattle.std.specs.Prelude.{◌<◌, IfOk};
ghost use Rattle.script_mean.specs.Event as event;
ghost use Rattle.script_mean.specs.NodePlan.{turn_of};
ghost use Rattle.script_mean.specs.PlanLine as spec;
ghost use Rattle.script_mean.specs.Script.{in_form};
ghost use Rattle.script_text.specs.Answer.{Answers};
ghost use Rattle.script_text.specs.Reading.{IsEvent, IsTurn, Says, numbered_line, words_left};

use crate::error::{LineError, ScriptError};
use crate::event::{cast, leave, send};
use crate::lines::NumberedLine;
use crate::words::Words;
use outside::Peer;
use script_mean::ScriptEvent;
use std::alloc::Global;

/// Where this member is reached, if that is what the line says.
pub(crate) fn peer_on(member: u8, line: NumberedLine<'_>) -> Result<Peer, ScriptError>
    ensures { Answers (in_form line.entry.number (event.said_by (spec.peer_line member) line.entry.text.now)) result }
{
    match peer(member, Words::new(line.text)) {
        Ok(peer) => Ok(peer),
        Err(error) => Err(error.at(line.number)),
    }
}

fn peer(member: u8, mut words: Words<'_>) -> Result<Peer, LineError>
    ensures { Says (spec.peer_line member (words_left words.entry)) result }
{
    words.the_word(b"peer")?;
    let _member = words.number_within(u32::from(member), u32::from(member))?;
    let peer = words.peer()?;
    words.end()?;
    Ok(peer)
}

/// The turn that a line of a plan with this number of members gives, no earlier than `earliest`.
pub(crate) fn turn_on(
    alloc: Global,
    members: u8,
    earliest: u32,
    line: NumberedLine<'_>,
) -> Result<(u32, ScriptEvent), ScriptError>
    ensures said { Answers (turn_of members earliest (numbered_line line.entry)) result }
    ensures of_member { IfOk result (λ turn. event.member_of turn.1 < members) }
{
    match turn(alloc, members, earliest, Words::new(line.text)) {
        Ok(turn) => Ok(turn),
        Err(error) => Err(error.at(line.number)),
    }
}

fn turn(
    alloc: Global,
    members: u8,
    earliest: u32,
    mut words: Words<'_>,
) -> Result<(u32, ScriptEvent), LineError>
    ensures { IsTurn members (spec.turn_line earliest (words_left words.entry)) result }
{
    words.the_word(b"turn")?;
    let turn = words.number_within(earliest, u32::MAX)?;
    let event = request(alloc, members, words)?;
    Ok((turn, event))
}

/// What an application asks for: a cast, a send, or to leave.
fn request(alloc: Global, members: u8, mut words: Words<'_>) -> Result<ScriptEvent, LineError>
    ensures { IsEvent members (spec.request_line (words_left words.entry)) result }
{
    let verb = words.next().ok_or(LineError::Form)?;
    if verb == b"cast".as_slice() {
        cast(alloc, members, words)
    } else if verb == b"send".as_slice() {
        send(alloc, members, words)
    } else if verb == b"leave".as_slice() {
        leave(members, words)
    } else {
        Err(LineError::Form)
    }
}

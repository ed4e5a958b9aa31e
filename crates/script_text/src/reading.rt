//! A whole script.
ghost use Rattle.std.specs.Prelude.{◌<◌, All, IfOk};
ghost use Rattle.script_mean.specs.Event.{member_of};
ghost use Rattle.script_mean.specs.Script.{IsRunnable, events_of, script_of};
ghost use Rattle.script_text.specs.Answer.{Answers};
ghost use Rattle.script_text.specs.Reading.{lines_left};

use crate::error::ScriptError;
use crate::event::{event_on, group_line};
use crate::lines::{Lines, line_count};
use script_mean::{Events, Script};
use std::alloc::Global;

/// The most bytes of a script or a plan.
pub const LONGEST_SCRIPT: usize = 4_194_304;

/// The most lines of a script.
pub(crate) const MOST_LINES: usize = 100_000;

/// Reads the script that a text spells, or finds the text's first fault.
pub fn read_script(alloc: Global, text: &[u8]) -> Result<Script, ScriptError>
    ensures spelled { Answers (script_of text.now) result }
    ensures runnable { IfOk result IsRunnable }
{
    if text.len() > LONGEST_SCRIPT || line_count(text) > MOST_LINES {
        return Err(ScriptError::TooLong);
    }
    let mut lines = Lines::of(text);
    let Some(first) = lines.next() else {
        return Err(ScriptError::BadLine(1));
    };
    let opening = group_line(first)?;
    let events = events(alloc, opening.members, lines)?;
    Ok(Script {
        group: opening.group,
        stamp: opening.stamp,
        members: opening.members,
        events,
    })
}

fn events(alloc: Global, members: u8, lines: Lines<'_>) -> Result<Events, ScriptError>
    ensures spelled { Answers (events_of members (lines_left lines.entry)) result }
    ensures of_members { IfOk result (All (λ event. member_of event < members)) }
{
    let mut events = Vec::new(alloc);
    for line in lines {
        events.push(event_on(alloc, members, line)?)?;
    }
    Ok(Events::of(events))
}

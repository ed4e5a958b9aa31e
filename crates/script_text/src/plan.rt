//! A whole plan of a node.
ghost use Rattle.std.specs.Prelude.{◌≡◌, ◌<◌, All, IfOk, drop, length};
ghost use Rattle.script_mean.specs.Event.{member_of};
ghost use Rattle.script_mean.specs.NodePlan.{node_plan, turns_of};
ghost use Rattle.script_text.specs.Answer.{Answers};
ghost use Rattle.script_text.specs.Plan.{IsRunnable, first_peers};
ghost use Rattle.script_text.specs.Reading.{lines_left};

use crate::error::ScriptError;
use crate::event::group_line;
use crate::lines::{Lines, line_count};
use crate::plan_line::{peer_on, turn_on};
use crate::reading::{LONGEST_SCRIPT, MOST_LINES};
use script_mean::{NodePlan, Peers, Turns};
use std::alloc::Global;

/// Reads the plan of a node that a text spells, or finds the text's first fault.
pub fn read_plan(alloc: Global, text: &[u8]) -> Result<NodePlan, ScriptError>
    ensures spelled { Answers (node_plan text.now) result }
    ensures runnable { IfOk result IsRunnable }
{
    let count = line_count(text);
    if text.len() > LONGEST_SCRIPT || count > MOST_LINES {
        return Err(ScriptError::TooLong);
    }
    let mut lines = Lines::of(text);
    let Some(first) = lines.next() else {
        return Err(ScriptError::BadLine(1));
    };
    let opening = group_line(first)?;
    let peers = peers(alloc, opening.members, count as u32 + 1, &mut lines)?;
    let turns = turns(alloc, opening.members, lines)?;
    Ok(NodePlan {
        group: opening.group,
        stamp: opening.stamp,
        peers,
        turns,
    })
}

/// Where each member is reached, as the first lines that are left say; the line of that number is
/// after the last.
fn peers(
    alloc: Global,
    members: u8,
    following: u32,
    lines: &mut Lines<'_>,
) -> Result<Peers, ScriptError>
    ensures spelled { Answers (first_peers members following (lines_left lines.old)) result }
    ensures count { IfOk result (λ peers. length peers ≡ members) }
    ensures left { IfOk result (λ peers. lines_left lines.new ≡ drop members (lines_left lines.old)) }
{
    let mut peers = Vec::new(alloc);
    for member in 0..members {
        let Some(line) = lines.next() else {
            return Err(ScriptError::BadLine(following));
        };
        peers.push(peer_on(member, line)?)?;
    }
    Ok(Peers::of(peers))
}

fn turns(alloc: Global, members: u8, lines: Lines<'_>) -> Result<Turns, ScriptError>
    ensures spelled { Answers (turns_of members 0 (lines_left lines.entry)) result }
    ensures of_members { IfOk result (All (λ turn. member_of turn.1 < members)) }
{
    let mut earliest = 0;
    let mut turns = Vec::new(alloc);
    for line in lines {
        let turn = turn_on(alloc, members, earliest, line)?;
        earliest = turn.0;
        turns.push(turn)?;
    }
    Ok(Turns::of(turns))
}

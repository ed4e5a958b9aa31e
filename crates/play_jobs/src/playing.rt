//! Scripts that are played over a stack, and their reports.

ghost use Rattle.std.specs.Prelude.{◌≤◌, length};
ghost use Rattle.std.specs.Rc.{rc_value};
ghost use Rattle.bypass_laws.specs.Stack.{AreOfStack};
ghost use Rattle.chain_laws.specs.Runs.{TypedStack};
ghost use Rattle.stack_judge.specs.Answer.{stack_tree};
ghost use Rattle.group_feed.specs.Beginning.{IsAtFirst};
ghost use Rattle.group_mean.specs.Shown.{shown_mode};
ghost use Rattle.group_mean.specs.Told.{replay_lines};
ghost use Rattle.group_open.specs.Opening.{CanRun};
ghost use Rattle.outside.specs.Lines.{Wrote};
ghost use Rattle.outside.specs.Tells.{tells_of};
ghost use Rattle.play_jobs.specs.Play.{Plays};
ghost use Rattle.run_mean.specs.Mode.{bypass};
ghost use Rattle.script_mean.specs.Script.{IsRunnable};
ghost use Rattle.stack_mean.specs.Plans.{plans_of};
ghost use Rattle.stack_play.specs.Turns.{most_events};
ghost use Rattle.stack_shapes.specs.Trees.{plans_tree};
ghost use Rattle.trace_core.specs.Bypasses.{bypasses_tree};

use crate::error::PlayError;
use group_mean::Mode;
use group_open::{Opened, open, open_with};
use outside::{Sink, SinkError};
use report_text::Manner;
use script_mean::{GroupLine, Script};
use stack_judge::Stack;
use stack_play::{Report, write_report};
use std::alloc::Global;
use trace_core::Bypasses;

/// The report that is wanted of a script: with the events, the packets' bytes and the number of visits, or without
/// these.
#[derive(Clone, Copy)]
pub struct Wanted<'a> {
    pub script: &'a Script,
    pub events: bool,
    pub wire: bool,
    pub count: bool,
}

/// Plays a script in the world in which it begins, in a mode, and writes its report as it is wanted.
pub fn play<O: Sink>(
    alloc: Global,
    mode: Mode,
    stack: Stack,
    wanted: Wanted<'_>,
    out: &mut O,
) -> Result<(), PlayError>
    requires runs_stack { CanRun (shown_mode mode) (stack_tree stack) }
    requires runs { IsRunnable wanted.script.now }
    requires few { length wanted.script.now.events ≤ most_events }
    ensures { Plays (stack_tree stack) wanted.entry.script.now.members
        (replay_lines (stack_tree stack) (plans_of (stack_tree stack)) wanted.entry.script.now (shown_mode mode)
        wanted.entry.events wanted.entry.wire wanted.entry.count)
        (tells_of O.Sink out.old) (tells_of O.Sink out.new) result }
{
    let opened = open(
        alloc,
        mode,
        stack,
        GroupLine {
            group: wanted.script.group,
            stamp: wanted.script.stamp,
            members: wanted.script.members,
        },
    )?;
    play_opened(alloc, opened, wanted, out)?;
    Ok(())
}

/// Plays a script by bypasses that are given, and are the stack's: with the same report as `play` in bypass mode.
pub(crate) fn play_with<O: Sink>(
    alloc: Global,
    bypasses: &Bypasses,
    stack: Stack,
    wanted: Wanted<'_>,
    out: &mut O,
) -> Result<(), PlayError>
    requires typed { TypedStack (stack_tree stack) }
    requires of_stack { AreOfStack (stack_tree stack) (bypasses_tree bypasses.now) }
    requires runs { IsRunnable wanted.script.now }
    requires few { length wanted.script.now.events ≤ most_events }
    ensures { Plays (stack_tree stack) wanted.entry.script.now.members
        (replay_lines (stack_tree stack) (plans_of (stack_tree stack)) wanted.entry.script.now bypass
        wanted.entry.events wanted.entry.wire wanted.entry.count)
        (tells_of O.Sink out.old) (tells_of O.Sink out.new) result }
{
    let opened = open_with(
        alloc,
        bypasses,
        stack,
        GroupLine {
            group: wanted.script.group,
            stamp: wanted.script.stamp,
            members: wanted.script.members,
        },
    )?;
    play_opened(alloc, opened, wanted, out)?;
    Ok(())
}

/// Plays a script in a group that begins, and lets go of the group.
fn play_opened<O: Sink>(
    alloc: Global,
    opened: Opened,
    wanted: Wanted<'_>,
    out: &mut O,
) -> Result<(), SinkError>
    requires first { IsAtFirst opened.group.mode (stack_tree opened.stack) (plans_tree (rc_value opened.plans))
        wanted.script.now.group wanted.script.now.stamp wanted.script.now.members opened.group opened.outputs.places }
    requires runs { IsRunnable wanted.script.now }
    requires few { length wanted.script.now.events ≤ most_events }
    ensures { Wrote (replay_lines (stack_tree opened.stack) (plans_tree (rc_value opened.plans)) wanted.entry.script.now
        opened.group.mode wanted.entry.events wanted.entry.wire wanted.entry.count)
        (tells_of O.Sink out.old) (tells_of O.Sink out.new) result }
{
    let Opened {
        stack,
        plans,
        entries: _,
        outputs,
        mut group,
    } = opened;
    let manner = Manner {
        stack: &stack,
        plans: &plans,
        events: wanted.events,
        wire: wanted.wire,
    };
    let report = Report {
        script: wanted.script,
        manner,
        count: wanted.count,
    };
    let wrote = write_report(alloc, &mut group, outputs, report, out);
    group.close();
    wrote
}

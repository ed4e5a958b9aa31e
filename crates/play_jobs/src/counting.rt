//! Scripts that are made and played over a stack, and the counts of their reports' lines.

ghost use Rattle.std.specs.Prelude.{◌≤◌};
ghost use Rattle.stack_judge.specs.Answer.{stack_tree};
ghost use Rattle.group_mean.specs.Shown.{shown_mode};
ghost use Rattle.group_open.specs.Opening.{CanRun};
ghost use Rattle.msg_core.specs.View.{most_members};
ghost use Rattle.outside.specs.Tells.{tells_of};
ghost use Rattle.play_jobs.specs.Play.{Plays};
ghost use Rattle.run_mean.specs.Tally.{tally};
ghost use Rattle.script_text.specs.Course.{script_for};
ghost use Rattle.stack_mean.specs.Plans.{plans_of};
ghost use Rattle.stack_play.specs.Turns.{most_events};

use crate::error::PlayError;
use group_mean::Mode;
use group_open::{Opened, open};
use outside::Sink;
use script_mean::GroupLine;
use script_text::Workload;
use stack_judge::Stack;
use stack_play::{PlayedLoad, write_counts};
use std::alloc::Global;

/// The group of a script that is made.
const GROUP: u32 = 1;

/// The stamp of its group.
const STAMP: u32 = 1;

/// Plays the script of a workload of 1 to 32 members in the world in which it begins, in a mode, and writes how many
/// lines of each kind its report has. Each event is made as it is played.
pub(crate) fn play_load<O: Sink>(
    alloc: Global,
    mode: Mode,
    stack: Stack,
    workload: Workload,
    out: &mut O,
) -> Result<(), PlayError>
    requires runs { CanRun (shown_mode mode) (stack_tree stack) }
    requires members { (1 ≤ workload.members) × (workload.members ≤ most_members) }
    requires few { workload.events ≤ most_events }
    ensures { Plays (stack_tree stack) workload.members
        (tally (stack_tree stack) (plans_of (stack_tree stack)) (shown_mode mode) (script_for workload))
        (tells_of O.Sink out.old) (tells_of O.Sink out.new) result }
{
    let line = GroupLine {
        group: GROUP,
        stamp: STAMP,
        members: workload.members,
    };
    let opened = open(alloc, mode, stack, line)?;
    let Opened {
        stack,
        plans,
        entries: _,
        outputs,
        mut group,
    } = opened;
    let load = PlayedLoad {
        stack: stack.stack(),
        plans: &plans,
        workload,
    };
    let wrote = write_counts(alloc, &mut group, outputs, load, out);
    group.close();
    wrote?;
    Ok(())
}

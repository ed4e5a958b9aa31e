//! Groups that begin.

ghost use Rattle.std.specs.Prelude.{◌≤◌};
ghost use Rattle.std.specs.Option.{option_map};
ghost use Rattle.std.specs.Rc.{rc_value};
ghost use Rattle.bypass_laws.specs.Stack.{AreOfStack};
ghost use Rattle.group_member.specs.Modes.{mode_with};
ghost use Rattle.chain_laws.specs.Runs.{TypedStack};
ghost use Rattle.stack_judge.specs.Answer.{stack_tree};
ghost use Rattle.group_mean.specs.Shown.{shown_mode};
ghost use Rattle.group_open.specs.Opening.{CanRun, IsPrepared, Opens};
ghost use Rattle.msg_core.specs.View.{most_members};
ghost use Rattle.run_mean.specs.Mode.{bypass};
ghost use Rattle.trace_core.specs.Bypasses.{bypasses_tree};

use crate::preparing::{prepare, prepare_with};
use crate::run::{Opened, Parts};
use group_mean::Mode;
use group_member::{OpenError, Opening};
use group_world::World;
use script_mean::GroupLine;
use stack_judge::Stack;
use std::alloc::Global;
use trace_core::Bypasses;

/// Opens the group that a first line tells of, of these parts.
pub(crate) fn begin(alloc: Global, parts: Parts, line: GroupLine) -> Result<Opened, OpenError>
    requires typed { TypedStack (stack_tree parts.stack) }
    requires prepared { IsPrepared (mode_with (option_map rc_value parts.codes)) (stack_tree parts.stack) parts }
    requires members { (1 ≤ line.members) × (line.members ≤ most_members) }
    ensures { Opens (mode_with (option_map rc_value parts.codes)) (stack_tree parts.stack) line.group line.stamp
        line.members result }
{
    let Parts {
        mut maker,
        stack,
        plans,
        entries,
        starts,
        codes,
        outputs,
    } = parts;
    let opening = Opening {
        stack: stack.stack(),
        plans: &plans,
        entries: &entries,
        starts,
        codes: codes.as_ref(),
        group: line.group,
        stamp: line.stamp,
    };
    match World::begin(alloc, &mut maker, opening, line.members) {
        Ok(world) => Ok(Opened {
            stack,
            plans,
            entries,
            outputs,
            group: world,
        }),
        Err(error) => Err(error),
    }
}

/// Opens the group that the first line of a script or plan tells of, over a stack that its members run in a mode.
pub fn open(alloc: Global, mode: Mode, stack: Stack, line: GroupLine) -> Result<Opened, OpenError>
    requires runs { CanRun (shown_mode mode) (stack_tree stack) }
    requires members { (1 ≤ line.members) × (line.members ≤ most_members) }
    ensures { Opens (shown_mode mode) (stack_tree stack) line.group line.stamp line.members result }
{
    let parts = prepare(alloc, mode, stack)?;
    begin(alloc, parts, line)
}

/// Opens the group that such a line tells of, over a stack that its members run by bypasses which are given, and are
/// the stack's.
pub fn open_with(
    alloc: Global,
    bypasses: &Bypasses,
    stack: Stack,
    line: GroupLine,
) -> Result<Opened, OpenError>
    requires typed { TypedStack (stack_tree stack) }
    requires of_stack { AreOfStack (stack_tree stack) (bypasses_tree bypasses.now) }
    requires members { (1 ≤ line.members) × (line.members ≤ most_members) }
    ensures { Opens bypass (stack_tree stack) line.group line.stamp line.members result }
{
    let parts = prepare_with(alloc, bypasses, stack)?;
    begin(alloc, parts, line)
}

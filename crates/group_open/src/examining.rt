//! Groups that are examined.

ghost use Rattle.std.specs.Prelude.{◌≤◌};
ghost use Rattle.bypass_laws.specs.Making.{IsSound};
ghost use Rattle.stack_judge.specs.Answer.{stack_tree};
ghost use Rattle.group_open.specs.Examining.{OpensExamined};
ghost use Rattle.msg_core.specs.View.{most_members};

use crate::opening::begin;
use crate::preparing::prepare_examined;
use crate::run::{Examination, Opened};
use group_member::OpenError;
use group_world::Examined;
use script_mean::GroupLine;
use stack_judge::Stack;
use std::alloc::Global;

/// Opens the group that the first line of a script tells of, over a stack: its members run by the stack's bypasses, and
/// are examined by the checks of these.
pub fn open_examined(alloc: Global, stack: Stack, line: GroupLine) -> Result<Examination, OpenError>
    requires sound { IsSound (stack_tree stack) }
    requires members { (1 ≤ line.members) × (line.members ≤ most_members) }
    ensures { OpensExamined (stack_tree stack) line.group line.stamp line.members result }
{
    let (parts, checks) = prepare_examined(alloc, stack)?;
    match begin(alloc, parts, line) {
        Ok(opened) => {
            let Opened {
                stack,
                plans,
                entries,
                outputs,
                group: world,
            } = opened;
            Ok(Examination {
                stack,
                plans,
                entries,
                outputs,
                group: Examined::of(world, checks),
            })
        }
        Err(error) => {
            checks.close();
            Err(error)
        }
    }
}

//! Members that are opened alone.

ghost use Rattle.std.specs.Prelude.{◌<◌, ◌≤◌, ◌^◌};
ghost use Rattle.std.specs.Option.{option_map};
ghost use Rattle.std.specs.Rc.{rc_value};
ghost use Rattle.chain_laws.specs.Runs.{TypedStack};
ghost use Rattle.group_mean.specs.Shown.{shown_mode};
ghost use Rattle.group_member.specs.Modes.{mode_with};
ghost use Rattle.group_member.specs.Opening.{CanOpen};
ghost use Rattle.live_layer.specs.Making.{making};
ghost use Rattle.member_open.specs.OneMember.{OpensFirst, OpensMember};
ghost use Rattle.group_open.specs.Opening.{CanRun, IsPrepared};
ghost use Rattle.msg_core.specs.View.{most_members};
ghost use Rattle.stack_judge.specs.Answer.{stack_tree};

use crate::member::OpenMember;
use group_mean::Mode;
use group_member::{Member, OpenError, Opening};
use group_open::{Parts, prepare};
use live_layer::Maker;
use script_mean::GroupLine;
use stack_judge::Stack;
use std::alloc::Global;
use view_masks::first_view;

/// Opens the member of this id of a group of n, in the first view.
#[tactic(auto, using(crate::proofs::Alone::opens_first))]
fn begin_one(
    alloc: Global,
    maker: &mut Maker,
    opening: Opening<'_>,
    n: u8,
    id: u8,
) -> Result<Member, OpenError>
    requires opening { CanOpen (2 ^ 62) (making maker.old) opening }
    requires members { n ≤ most_members }
    requires id { id < n }
    ensures { OpensFirst opening.entry n id result }
{
    let view = first_view(n);
    Member::begin(alloc, maker, opening, view, id)
}

/// Opens one member of the group that a first line tells of, of these parts.
fn begin_member(
    alloc: Global,
    parts: Parts,
    line: GroupLine,
    id: u8,
) -> Result<OpenMember, OpenError>
    requires typed { TypedStack (stack_tree parts.stack) }
    requires prepared { IsPrepared (mode_with (option_map rc_value parts.codes)) (stack_tree parts.stack) parts }
    requires members { line.members ≤ most_members }
    requires id { id < line.members }
    ensures { OpensMember (mode_with (option_map rc_value parts.codes)) (stack_tree parts.stack) line.group line.stamp
        line.members id result }
{
    let Parts {
        mut maker,
        stack,
        plans,
        entries,
        starts,
        codes,
        outputs,
    } = parts;
    let opening = Opening {
        stack: stack.stack(),
        plans: &plans,
        entries: &entries,
        starts,
        codes: codes.as_ref(),
        group: line.group,
        stamp: line.stamp,
    };
    match begin_one(alloc, &mut maker, opening, line.members, id) {
        Ok(member) => Ok(OpenMember {
            plans,
            outputs,
            member,
        }),
        Err(error) => Err(error),
    }
}

/// Opens one member, of this id, of the group that the first line of a script or plan tells of, over a stack that it
/// runs in a mode.
pub fn open_member(
    alloc: Global,
    mode: Mode,
    stack: Stack,
    line: GroupLine,
    id: u8,
) -> Result<OpenMember, OpenError>
    requires runs { CanRun (shown_mode mode) (stack_tree stack) }
    requires members { line.members ≤ most_members }
    requires id { id < line.members }
    ensures { OpensMember (shown_mode mode) (stack_tree stack) line.group line.stamp line.members id result }
{
    let parts = prepare(alloc, mode, stack)?;
    begin_member(alloc, parts, line, id)
}

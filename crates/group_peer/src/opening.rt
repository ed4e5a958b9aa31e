//! Members that are opened.

ghost use Rattle.std.specs.Prelude.{◌<◌, ◌≤◌};
ghost use Rattle.group_mean.specs.Shown.{shown_mode};
ghost use Rattle.group_open.specs.Opening.{CanRun};
ghost use Rattle.msg_core.specs.View.{most_members};
ghost use Rattle.stack_judge.specs.Answer.{stack_tree};
ghost use Rattle.group_peer.specs.Opening.{OpensPeer};

use crate::peer::Peer;
use group_mean::Mode;
use group_member::OpenError;
use member_open::{OpenMember, open_member};
use script_mean::GroupLine;
use stack_judge::Stack;
use std::alloc::Global;

/// The room in which a packet is spelled: 17 bytes of each of 24 headers, a body of 8,192, and 20 more.
const ROOM: usize = 8_620;

impl Peer {
    /// Opens the member of this id of the group that the first line of a script or plan tells of, in its first view,
    /// over a stack that it runs in a mode. All memory is taken here.
    pub fn open(
        alloc: Global,
        mode: Mode,
        stack: Stack,
        line: GroupLine,
        id: u8,
    ) -> Result<Peer, OpenError>
        requires runs { CanRun (shown_mode mode) (stack_tree stack) }
        requires members { line.members ≤ most_members }
        requires id { id < line.members }
        ensures { OpensPeer (shown_mode mode) (stack_tree stack) line.group line.stamp line.members id result }
    {
        stack.law_within_limits();
        let bytes = Vec::with_capacity(alloc, ROOM)?;
        let opened = open_member(alloc, mode, stack, line, id)?;
        let OpenMember {
            plans,
            mut outputs,
            member,
        } = opened;
        outputs.clear();
        Ok(Peer {
            member,
            id,
            plans,
            outputs,
            next: 0,
            change: None,
            bytes,
        })
    }
}

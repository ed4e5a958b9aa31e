//! Groups at work.

ghost use Rattle.std.specs.Prelude.{◌≡◌, ◌+◌, ◌≤◌, ◌^◌, length};
ghost use Rattle.stack_mean.specs.Acceptance.{largest_weight};
ghost use Rattle.run_mean.specs.World as mean;
ghost use Rattle.group_feed.specs.Standing.{Stands, Stays};
ghost use Rattle.group_world.specs.Restarting.{Restarts};
ghost use Rattle.hunt_ground.specs.Feeding.{Feeds};

use group_feed::Feed;
use group_world::World;
use msg_core::Memory;
use script_mean::{ScriptEvent, member_of};
use std::marker::Model;
use step_outputs::Outputs;
use view_core::Did;

/// A group, with the outputs of its last step. It can't be let go: it is closed. Contracts see its members and packets.
pub struct Group {
    world: World,
    outputs: Outputs,
    members: u8,
}

impl Model for Group {
    ghost use Rattle.std.specs.Prelude.{◌≡◌, length};
    ghost use Rattle.std.specs.Coded.{codes};
    ghost use Rattle.layer_mean.specs.Codes.{stack_code};
    ghost use Rattle.stack_mean.specs.Acceptance.{largest_weight};
    ghost use Rattle.group_member.specs.Modes.{mode_code};
    ghost use Rattle.group_feed.specs.Standing.{Peopled};

    ghost Value = { Peopled };

    ghost coded = { Prim.hlevel (codes, mode_code, stack_code) };

    ghost view = { λ g. g.world };

    ghost invariant = { λ g. (g.outputs.places ≡ largest_weight g.world.stack) × (length g.world.members ≡ g.members) };
}

impl Group {
    /// A group of this many members, with room for its outputs.
    pub(crate) fn of(world: World, outputs: Outputs, members: u8) -> Group
        requires places { outputs.places ≡ largest_weight world.stack }
        requires count { length world.members ≡ members }
        ensures { result ≡ world }
    {
        Group {
            world,
            outputs,
            members,
        }
    }

    /// An event happens in the group, and the outputs become those of its step. An event of a member that the group
    /// doesn't have changes nothing, and yields no outputs. Where memory runs out, the group may only be let go.
    pub fn feed(&mut self, event: &ScriptEvent) -> Result<Option<Did>, Memory>
        ensures fed { (w : mean.World) → Stands self.old w → Feeds self.old w event.now self.new result }
        ensures stays { Stays self.old self.new }
    {
        if member_of(event) >= self.members {
            self.outputs.clear();
            return Ok(None);
        }
        let mut visits = 0;
        match self.world.feed(event, &mut self.outputs, &mut visits) {
            Ok(did) => Ok(Some(did)),
            Err(Memory) => Err(Memory),
        }
    }

    /// How many members it has.
    pub fn members(&self) -> u8
        ensures { result ≡ length self.now.members }
    {
        self.members
    }

    /// Begins again, in the memory that it has, and answers whether it did. Where it didn't, it may only be let go.
    pub fn restart(&mut self) -> bool
        ensures again { Restarts self.old self.new result }
        ensures stays { Stays self.old self.new }
    {
        self.outputs.clear();
        self.world.restart()
    }

    /// The outputs of the last step.
    pub fn outputs(&self) -> &Outputs {
        &self.outputs
    }

    /// The number that the next packet gets.
    pub fn next_number(&self) -> u64
        ensures number { result ≡ length self.now.spelled + 1 }
        ensures small { result ≤ 2 ^ 63 }
    {
        self.world.next_number()
    }

    /// Lets the group go.
    pub fn close(self) {
        let Group {
            world,
            outputs: _,
            members: _,
        } = self;
        world.close();
    }
}

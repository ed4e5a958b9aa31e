//! Groups that tell why events are no common steps.

ghost use Rattle.std.specs.Prelude.{◌≡◌};
ghost use Rattle.group_world.specs.Examining.{IsExamined};

use crate::world::World;
use group_feed::{Feed, Probe};
use guard_checks::StackChecks;
use msg_core::Memory;
use script_mean::ScriptEvent;
use std::marker::Model;
use step_misses::Probed;
use step_outputs::Outputs;
use view_core::Did;

/// The members of a group, and the checks of their stack: those of the bypasses that are made of it. It is fed as its
/// world is, and can't be dropped: it is closed.
pub struct Examined {
    world: World,
    checks: StackChecks,
}

impl Model for Examined {
    ghost use Rattle.std.specs.Coded.{codes};
    ghost use Rattle.layer_mean.specs.Codes.{stack_code};
    ghost use Rattle.group_member.specs.Modes.{mode_code};
    ghost use Rattle.group_world.specs.Examining.{IsExamined};
    ghost use Rattle.group_feed.specs.Standing.{Peopled};

    ghost Value = { Peopled };

    ghost coded = { Prim.hlevel (codes, mode_code, stack_code) };

    ghost view = { λ e. e.world };

    ghost invariant = { λ e. IsExamined e.world.stack e.checks };
}

impl Examined {
    /// A group of a sound stack, with the stack's checks.
    pub fn of(world: World, checks: StackChecks) -> Examined
        requires { IsExamined world.stack checks }
        ensures { result ≡ world }
    {
        Examined { world, checks }
    }

    /// Lets go of the members and of the checks.
    pub fn close(self) {
        let Examined { world, checks } = self;
        world.close();
        checks.close();
    }
}

impl Feed for Examined {
    ghost group = { λ e. e };

    #[inline(always)]
    fn feed(
        &mut self,
        event: &ScriptEvent,
        out: &mut Outputs,
        visits: &mut u64,
    ) -> Result<Did, Memory> {
        self.world.feed(event, out, visits)
    }

    fn next_number(&self) -> u64 {
        self.world.next_number()
    }
}

impl Probe for Examined {
    fn probe(&mut self, event: &ScriptEvent, out: &mut Outputs) -> Result<Probed, Memory> {
        self.world.probe(&mut self.checks, event, out)
    }
}

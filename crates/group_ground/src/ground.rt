//! What groups over a stack begin with.

ghost use Rattle.std.specs.Prelude.{◌≡◌, ◌≤◌, IfOk};
ghost use Rattle.bypass_laws.specs.Making.{IsSound};
ghost use Rattle.stack_judge.specs.Answer.{stack_tree};
ghost use Rattle.stack_mean.specs.Acceptance.{largest_weight};
ghost use Rattle.stack_mean.specs.Plans.{plans_of};
ghost use Rattle.stack_shapes.specs.Trees.{plans_tree};
ghost use Rattle.msg_core.specs.View.{most_members};
ghost use Rattle.group_ground.specs.Grounds.{Begins};

use group_mean::Mode;
use group_member::{OpenError, Opening};
use group_open::{Parts, prepare};
use group_world::World;
use msg_core::Memory;
use report_lines::NamedStack;
use script_mean::GroupLine;
use stack_judge::Stack;
use stack_shapes::Plans;
use std::alloc::{AllocError, Global};
use std::marker::Model;
use step_outputs::Outputs;

/// The most groups that begin over one stack.
const MOST_GROUPS: u64 = 1 << 40;

/// What groups over a stack are opened of, and how many began. Contracts see the stack.
#[derive(Drop)]
pub struct Ground {
    parts: Parts,
    begun: u64,
}

impl Model for Ground {
    ghost use Rattle.std.specs.Prelude.{List};
    ghost use Rattle.std.specs.Coded.{codes};
    ghost use Rattle.layer_mean.specs.Codes.{stack_code};
    ghost use Rattle.layer_mean.specs.Tree.{LayerTree};
    ghost use Rattle.stack_judge.specs.Answer.{stack_tree};
    ghost use Rattle.group_ground.specs.Grounds.{IsGround};

    ghost Value = { List LayerTree };

    ghost coded = { Prim.hlevel (codes, stack_code) };

    ghost view = { λ g. stack_tree g.parts.stack };

    ghost invariant = { λ g. IsGround (stack_tree g.parts.stack) g.parts g.begun };
}

impl Ground {
    /// What groups over a stack begin with, of which none began.
    pub fn of(alloc: Global, stack: Stack) -> Result<Ground, Memory>
        requires { IsSound (stack_tree stack) }
        ensures { IfOk result (λ made. made ≡ stack_tree stack) }
    {
        stack.law_within_limits();
        let parts = prepare(alloc, Mode::Bypass, stack)?;
        Ok(Ground { parts, begun: 0 })
    }

    /// Begins the group that the first line of a script tells of. Once `MOST_GROUPS` groups have begun, memory is said
    /// to have run out.
    pub fn begin(&mut self, alloc: Global, line: GroupLine) -> Result<World, OpenError>
        requires { (1 ≤ line.members) × (line.members ≤ most_members) }
        ensures begins { Begins self.old line result }
        ensures kept { self.new ≡ self.old }
    {
        if self.begun >= MOST_GROUPS {
            return Err(OpenError::Memory);
        }
        self.begun += 1;
        let opening = Opening {
            stack: self.parts.stack.stack(),
            plans: &self.parts.plans,
            entries: &self.parts.entries,
            starts: self.parts.starts,
            codes: self.parts.codes.as_ref(),
            group: line.group,
            stamp: line.stamp,
        };
        World::begin(alloc, &mut self.parts.maker, opening, line.members)
    }

    /// The stack, with the names of its headers.
    pub fn stack(&self) -> &NamedStack
        ensures { stack_tree result.now ≡ self.now }
    {
        &self.parts.stack
    }

    /// The plans of the stack.
    pub fn plans(&self) -> &Plans
        ensures { plans_tree result.now ≡ plans_of self.now }
    {
        &self.parts.plans
    }

    /// Room for the outputs of a step.
    pub fn outputs(&self, alloc: Global) -> Result<Outputs, AllocError>
        ensures { IfOk result (λ outputs. outputs.places ≡ largest_weight self.now) }
    {
        Outputs::new(alloc, self.parts.stack.stack())
    }
}

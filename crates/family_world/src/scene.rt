//! Families that are tried.

ghost use Rattle.std.specs.Prelude.{◌≡◌, [], IfOk};
ghost use Rattle.bypass_laws.specs.Making.{IsSound};
ghost use Rattle.family_mean.specs.Family.{MayFollow};
ghost use Rattle.family_search.specs.Trying.{events_of};
ghost use Rattle.family_group.specs.Playing.{script_in};
ghost use Rattle.script_mean.specs.Script.{IsRunnable};
ghost use Rattle.stack_judge.specs.Answer.{stack_tree};
ghost use Rattle.family_world.specs.Families.{Counts, Grounds, Opens, PassesOn, TellsReport};

use crate::bounds::Bounds;
use crate::playground::{Playground, line_of, sent_after, takes};
use crate::reports::{keeps, report};
use family_group::{Gear, script_with};
use family_search::{Choice, Trial};
use group_ground::Ground;
use group_member::OpenError;
use msg_core::Memory;
use script_mean::{Script, ScriptEvent};
use stack_judge::Stack;
use std::alloc::{AllocError, Global};
use std::marker::Model;

/// A group in which the scripts of a family are tried. It can't be let go: it is closed. Contracts see the family.
pub struct Scene {
    play: Playground,
    acts: Script,
    bounds: Bounds,
}

impl Model for Scene {
    ghost use Rattle.std.specs.Prelude.{◌≡◌};
    ghost use Rattle.std.specs.Coded.{codes};
    ghost use Rattle.layer_mean.specs.Codes.{stack_code};
    ghost use Rattle.family_mean.specs.Family.{Family};
    ghost use Rattle.script_mean.specs.Script.{IsRunnable};
    ghost use Rattle.family_world.specs.Families.{family_in};
    ghost use Rattle.family_world.specs.Standing.{IsKept};

    ghost Value = { Family };

    ghost coded = { Prim.hlevel (codes, stack_code) };

    ghost view = { λ s. family_in s.play.ground s.acts s.bounds };

    ghost invariant = { λ s. IsKept s.acts s.play × IsRunnable s.acts };
}

/// A group of as many members as acts have, over the ground of a stack.
fn ground_of(alloc: Global, stack: Stack, acts: &Script) -> Result<Playground, OpenError>
    requires sound { IsSound (stack_tree stack) }
    requires runs { IsRunnable acts.now }
    ensures { Grounds (stack_tree stack) acts.now result }
{
    let mut ground = Ground::of(alloc, stack)?;
    let outputs = ground.outputs(alloc)?;
    match ground.begin(alloc, line_of(acts)) {
        Ok(world) => Ok(Playground {
            ground,
            world,
            gear: Gear::new(alloc, outputs),
            is_named: true,
        }),
        Err(error) => Err(error),
    }
}

impl Scene {
    /// A group in which the scripts of a family are tried: over this stack, with these acts, and within these bounds.
    pub fn open(
        alloc: Global,
        stack: Stack,
        acts: Script,
        bounds: Bounds,
    ) -> Result<Scene, OpenError>
        requires sound { IsSound (stack_tree stack) }
        requires runs { IsRunnable acts }
        ensures { Opens (stack_tree stack) acts bounds result }
    {
        let play = ground_of(alloc, stack, &acts)?;
        Ok(Scene { play, acts, bounds })
    }

    /// The bounds of the family.
    pub fn bounds(&self) -> Bounds
        ensures law { result.law ≡ self.now.law }
        ensures events { result.events ≡ self.now.events }
        ensures repeats { result.repeats ≡ self.now.repeats }
    {
        self.bounds
    }

    /// The report of the script of the events of choices.
    pub fn report(&mut self, alloc: Global, past: &[Choice]) -> Result<Vec<u8>, AllocError>
        requires { MayFollow self.old [] (events_of self.old past.now) }
        ensures { TellsReport self.old (events_of self.old past.now) self.new result }
    {
        match report(alloc, &mut self.play, &self.acts, past) {
            Ok(report) => Ok(report),
            Err(_) => Err(AllocError),
        }
    }

    /// The script of the events of choices.
    pub fn script(&self, alloc: Global, past: &[Choice]) -> Result<Script, AllocError>
        ensures { IfOk result (λ script. script ≡ script_in self.now.acts past.now) }
    {
        script_with(alloc, &self.acts, past)
    }

    /// Lets the group go.
    pub fn close(self) {
        let Scene {
            play,
            acts: _,
            bounds: _,
        } = self;
        play.close();
    }
}

impl Trial for Scene {
    ghost family = { λ s. s };

    fn acts(&self) -> &[ScriptEvent] {
        self.acts.events.slice()
    }

    fn members(&self) -> u8 {
        self.acts.members
    }

    fn repeats(&self) -> u16 {
        self.bounds.repeats
    }

    fn sent(&mut self, alloc: Global, past: &[Choice]) -> Result<u32, AllocError> {
        packets(sent_after(alloc, &mut self.play, &self.acts, past))
    }

    fn takes(
        &mut self,
        alloc: Global,
        past: &[Choice],
        choice: Choice,
    ) -> Result<bool, AllocError> {
        passed(takes(alloc, &mut self.play, &self.acts, past, choice))
    }

    fn keeps(&mut self, alloc: Global, past: &[Choice]) -> Result<bool, AllocError> {
        passed(keeps(alloc, &mut self.play, &self.acts, self.bounds.law, past))
    }
}

/// An answer, or that memory ran out.
fn passed(answer: Result<bool, Memory>) -> Result<bool, AllocError>
    ensures { PassesOn answer result }
{
    match answer {
        Ok(holds) => Ok(holds),
        Err(_) => Err(AllocError),
    }
}

/// A number of packets, if it isn't too high.
fn packets(sent: Result<u64, Memory>) -> Result<u32, AllocError>
    ensures { Counts sent result }
{
    match sent {
        Ok(sent) => count(sent),
        Err(_) => Err(AllocError),
    }
}

/// This number, if it isn't too high.
fn count(sent: u64) -> Result<u32, AllocError>
    ensures { IfOk result (λ count. count ≡ sent) }
{
    match u32::try_from(sent) {
        Ok(count) => Ok(count),
        Err(_) => Err(AllocError),
    }
}

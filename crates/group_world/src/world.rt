//! The members of a group at work, and every packet ever sent in it.

ghost use Rattle.std.specs.Prelude.{◌≡◌, ◌+◌, ◌^◌, ◌<◌, ◌≤◌, IfOk, length};
ghost use Rattle.std.specs.Rc.{rc_value};
ghost use Rattle.stack_mean.specs.Acceptance.{largest_weight};
ghost use Rattle.live_layer.specs.Making.{making};
ghost use Rattle.run_mean.specs.World as mean;
ghost use Rattle.group_member.specs.Opening.{CanOpen};
ghost use Rattle.group_feed.specs.Feeding.{Fed};
ghost use Rattle.group_feed.specs.Probing.{Probes};
ghost use Rattle.run_mean.specs.Mode.{bypass};
ghost use Rattle.script_mean.specs.Event.{member_of};
ghost use Rattle.group_world.specs.Examining.{IsExamined};
ghost use Rattle.group_world.specs.Opening.{Begins};
ghost use Rattle.group_world.specs.Restarting.{Restarts};
ghost use Rattle.group_world.specs.Seats.{shown_or_out};
ghost use Rattle.group_feed.specs.Showing.{shown_in};
ghost use Rattle.group_feed.specs.Standing.{Stands, Stays};
ghost use Rattle.msg_core.specs.View.{most_members};

use crate::asked::{Asked, input_of};
use crate::given::{probe_member, step_member};
use crate::members::{close_all, open_all, restart_all};
use crate::packets::Packets;
use group_feed::Feed;
use group_member::{Member, OpenError, Opening};
use guard_checks::StackChecks;
use live_layer::Maker;
use member_reads::Shown;
use msg_core::Memory;
use script_mean::ScriptEvent;
use stack_judge::Stack;
use stack_shapes::Plans;
use std::alloc::{AllocError, Global};
use std::marker::Model;
use std::rc::Rc;
use step_misses::Probed;
use step_outputs::Outputs;
use view_core::Did;

/// The members of a group, by id, and every packet ever sent in it. A packet that is lost is one that is never given.
pub struct World {
    /// Whether its members run by bypasses.
    bypasses: bool,
    stack: Rc<Stack>,
    plans: Rc<Plans>,
    group: u32,
    stamp: u32,
    members: Vec<Member>,
    packets: Packets,
}

impl Model for World {
    ghost use Rattle.std.specs.Prelude.{map};
    ghost use Rattle.std.specs.Coded.{codes};
    ghost use Rattle.std.specs.Rc.{rc_value};
    ghost use Rattle.layer_mean.specs.Codes.{stack_code};
    ghost use Rattle.group_member.specs.Modes.{mode_code};
    ghost use Rattle.stack_judge.specs.Answer.{stack_tree};
    ghost use Rattle.stack_shapes.specs.Trees.{plans_tree};
    ghost use Rattle.group_world.specs.Seats.{member_of, mode_when, AreSeated};
    ghost use Rattle.group_feed.specs.Standing.{Peopled};

    ghost Value = { Peopled };

    ghost coded = { Prim.hlevel (codes, mode_code, stack_code) };

    ghost view = { λ w. record {
      mode = mode_when w.bypasses;
      stack = stack_tree (rc_value w.stack);
      plans = plans_tree (rc_value w.plans);
      group = w.group;
      stamp = w.stamp;
      members = map member_of w.members.items;
      spelled = w.packets;
    } };

    ghost invariant = { λ w. AreSeated (mode_when w.bypasses) (stack_tree (rc_value w.stack))
        (plans_tree (rc_value w.plans)) w.group w.stamp w.members.items };
}

/// This stack and these plans, shared once more.
fn share(stack: &Rc<Stack>, plans: &Rc<Plans>) -> Result<(Rc<Stack>, Rc<Plans>), AllocError>
    ensures stack { IfOk result (λ shared. rc_value shared.0 ≡ rc_value stack.now) }
    ensures plans { IfOk result (λ shared. rc_value shared.1 ≡ rc_value plans.now) }
{
    Ok((stack.clone()?, plans.clone()?))
}

impl World {
    /// The members 0 to n - 1 of a group in the first view, who have been given nothing. They run by the bypasses of
    /// which the opening has the code, if it has it, and else layer by layer.
    pub fn begin(
        alloc: Global,
        maker: &mut Maker,
        opening: Opening<'_>,
        n: u8,
    ) -> Result<World, OpenError>
        requires opening { CanOpen (2 ^ 61) (making maker.old) opening }
        requires members { (1 ≤ n) × (n ≤ most_members) }
        ensures { Begins opening.entry n (making maker.old) (making maker.new) result }
    {
        let (stack, plans) = share(opening.stack, opening.plans)?;
        match open_all(alloc, maker, opening, n) {
            Ok(members) => Ok(World {
                bypasses: opening.codes.is_some(),
                stack,
                plans,
                group: opening.group,
                stamp: opening.stamp,
                members,
                packets: Packets::new(alloc),
            }),
            Err(error) => Err(error),
        }
    }

    /// Takes an event: its member steps by the input that it is given, if it is given one.
    #[inline(always)]
    fn take(
        &mut self,
        event: &ScriptEvent,
        out: &mut Outputs,
        visits: &mut u64,
    ) -> Result<Did, Memory>
        requires member { member_of event.now < length self.old.members }
        requires out { out.old.places ≡ largest_weight self.old.stack }
        requires visits { visits.old ≤ 2 ^ 63 }
        ensures fed { (w : mean.World) → Stands self.old w →
            Fed self.old (mean.happens self.old.stack self.old.plans w event.now) self.new out.new.outputs visits.old
            visits.new result }
        ensures stays { Stays self.old self.new }
        ensures places { out.new.places ≡ out.old.places }
        ensures few { visits.new ≤ visits.old + 65536 }
    {
        let (id, input) = match input_of(event, &self.packets) {
            Asked::Step(id, input) => (id, input),
            Asked::Absent => {
                out.clear();
                return Ok(Did::Absent);
            }
            Asked::Shown => {
                out.clear();
                return Ok(Did::Shown);
            }
        };
        let stepped = step_member(&mut self.members[usize::from(id)], input, out, visits);
        match self.packets.keep(&self.plans, out) {
            Ok(()) => Ok(Did::Stepped(stepped)),
            Err(Memory) => Err(Memory),
        }
    }

    /// Tries an event as a common step of its member, by the checks of the group's stack.
    pub(crate) fn probe(
        &mut self,
        checks: &mut StackChecks,
        event: &ScriptEvent,
        out: &mut Outputs,
    ) -> Result<Probed, Memory>
        requires mode { self.old.mode ≡ bypass }
        requires examined { IsExamined self.old.stack checks.old }
        requires member { member_of event.now < length self.old.members }
        requires out { out.old.places ≡ largest_weight self.old.stack }
        ensures probed { (w : mean.World) → Stands self.old w →
            Probes self.old (mean.happens self.old.stack self.old.plans w event.now) self.new result }
        ensures stays { Stays self.old self.new }
        ensures checks { checks.new ≡ checks.old }
        ensures places { out.new.places ≡ out.old.places }
    {
        let (id, input) = match input_of(event, &self.packets) {
            Asked::Step(id, input) => (id, input),
            Asked::Absent => return Ok(Probed::Other),
            Asked::Shown => return Ok(Probed::Other),
        };
        let probed = probe_member(&mut self.members[usize::from(id)], checks, input, out);
        match self.packets.keep(&self.plans, out) {
            Ok(()) => Ok(probed),
            Err(Memory) => Err(Memory),
        }
    }

    /// A member, shown; None where the group doesn't have it.
    pub(crate) fn shown(&self, id: u8) -> Option<Shown<'_>>
        ensures { shown_or_out result ≡ shown_in self.now id }
    {
        match self.members.get(usize::from(id)) {
            Some(member) => Some(member.shown()),
            None => None,
        }
    }

    /// Begins again, in the memory that it has, and answers whether it did: all its members are in the first view, and
    /// no packet was sent. Where a member doesn't begin again, the answer is false, and the group may only be closed.
    pub fn restart(&mut self) -> bool
        ensures again { Restarts self.old self.new result }
        ensures stays { Stays self.old self.new }
    {
        if restart_all(&mut self.members) {
            self.packets.clear();
            return true;
        }
        false
    }

    /// Lets go of the members.
    pub fn close(self) {
        let World {
            bypasses: _,
            stack: _,
            plans: _,
            group: _,
            stamp: _,
            members,
            packets: _,
        } = self;
        close_all(members);
    }
}

impl Feed for World {
    ghost group = { λ w. w };

    #[inline(always)]
    fn feed(
        &mut self,
        event: &ScriptEvent,
        out: &mut Outputs,
        visits: &mut u64,
    ) -> Result<Did, Memory> {
        self.take(event, out, visits)
    }

    fn next_number(&self) -> u64 {
        self.packets.len() as u64 + 1
    }
}

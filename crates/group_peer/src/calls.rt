//! What is asked of a member: its steps, and what came out of them.

ghost use Rattle.std.specs.Prelude.{◌≡◌, ◌<◌, ◌≤◌, length, vec_capacity};
ghost use Rattle.std.specs.Rc.{rc_value};
ghost use Rattle.stack_shapes.specs.Trees.{plans_tree};
ghost use Rattle.view_core.specs.Steps.{input_meant};
ghost use Rattle.group_peer.specs.Next.{Tells, told_change};
ghost use Rattle.group_member.specs.Placed.{SamePlace, StandsAt};
ghost use Rattle.group_peer.specs.Standing.{IsFit, most_room};
ghost use Rattle.group_peer.specs.Telling.{MakesStep, Took, change_in};

use crate::given::law_given;
use crate::heads::head_of;
use crate::peer::Peer;
use crate::puts::put_bytes;
use crate::told::{Put, Told};
use group_member::Member;
use step_outputs::Outputs;
use view_core::{Change, Input, Stepped};

/// Where a member is since a step, if it installed something.
fn change_of(stepped: Stepped) -> Option<Change>
    ensures { result ≡ change_in stepped }
{
    match stepped {
        Stepped::Taken { common: _, change } => change,
        Stepped::Refused(_) => None,
    }
}

/// What is told of where a member is since.
fn told_of(change: Option<Change>) -> Told
    ensures { result ≡ told_change change }
{
    match change {
        Some(change) => Told::Changed(change),
        None => Told::Nothing,
    }
}

/// A member takes an input, with its outputs put where they have places.
#[tactic(auto, using(crate::proofs::Rules::of_step))]
fn step_member(member: &mut Member, outputs: &mut Outputs, input: Input<'_>) -> Stepped
    requires { IsFit member.old outputs.old }
    ensures step { MakesStep member.old (input_meant input.entry) member.new outputs.new.outputs result }
    ensures here { StandsAt member.old outputs.new.here result }
    ensures place { SamePlace member.old member.new }
    ensures fit { IsFit member.new outputs.new }
{
    law_given(member, &input);
    let mut visits = 0;
    member.step(input, outputs, &mut visits)
}

impl Peer {
    /// That its member is as it is between two calls, and that its own id and plans are the member's.
    fn law_stands(&self)
        ensures fit { IsFit self.now.member self.now.outputs }
        ensures id { self.now.member.id ≡ self.now.id }
        ensures plans { plans_tree (rc_value self.now.plans) ≡ self.now.member.plans }
        ensures room { most_room ≤ vec_capacity self.now.bytes }
    {}

    /// Takes an input, which makes one step, or refuses it, and then nothing has changed. Outputs of the step before
    /// that weren't told are let go.
    pub fn step(&mut self, input: Input<'_>) -> Stepped
        ensures { Took self.old (input_meant input.entry) self.new result }
    {
        self.law_stands();
        let stepped = step_member(&mut self.member, &mut self.outputs, input);
        self.next = 0;
        self.change = change_of(stepped);
        stepped
    }

    /// Tells the next output of the last step, with its bytes in a room; after the last, where the member is since.
    pub fn tell(&mut self, room: &mut [u8]) -> Told
        ensures { Tells self.old self.new room.old room.new result }
    {
        if self.next < self.outputs.len() {
            return self.tell_output(room);
        }
        let change = self.change;
        self.change = None;
        told_of(change)
    }

    /// Tells the next output, of which there is one.
    #[tactic(auto, using(crate::proofs::Rules::of_output))]
    fn tell_output(&mut self, room: &mut [u8]) -> Told
        requires { self.old.next < length self.old.outputs.outputs }
        ensures { Tells self.old self.new room.old room.new result }
    {
        self.law_stands();
        let _count = self.outputs.len();
        let here = self.outputs.here();
        let output = self.outputs.at(self.next);
        let head = head_of(&here, self.id, &output);
        match put_bytes(&self.plans, &here, &output, &mut self.bytes, room) {
            Put::Fits(count) => {
                self.next += 1;
                Told::Output(head, count)
            }
            Put::Short(count) => Told::NoRoom(count),
        }
    }
}

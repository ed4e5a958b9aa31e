//! The events of a script that is made from a seed.
ghost use Rattle.std.specs.Prelude.{◌≡◌, ◌+◌, ◌<◌, ◌≤◌, length, IfErr, IfOk};
ghost use Rattle.script_mean.specs.Event.{member_of};
ghost use Rattle.script_mean.specs.Generate as spec;
ghost use Rattle.script_text.specs.Making.{IsWithin, Makes, MakesEvent};
ghost use Rattle.msg_core.specs.View.{most_members};

use crate::datagram::{body, datagram};
use crate::seed::Seed;
use script_mean::ScriptEvent;
use std::alloc::{AllocError, Global};
use std::mem;

/// How far a script is made: whether it has datagrams, how many members, the seed, and for each member
/// the number of the packet that it was given last. Beside these, memory for the next body.
#[derive(Drop)]
pub(crate) struct Maker {
    pub raw: bool,
    pub members: u8,
    pub seed: Seed,
    pub cursors: Vec<u32>,
    pub spare: Vec<u8>,
}

impl Maker {
    /// The event of this number, counted from 0.
    pub(crate) fn event(&mut self, alloc: Global, number: u32) -> Result<ScriptEvent, AllocError>
        requires members { (1 ≤ self.old.members) × (self.old.members ≤ most_members) }
        requires cursors { length self.old.cursors.items ≡ self.old.members }
        requires within { IsWithin number self.old.cursors.items }
        requires few { number < 2147483647 }
        ensures made { MakesEvent
            (spec.an_event self.old.raw self.old.members number self.old.cursors.items self.old.seed.value) result
            self.new }
        ensures of_member { IfOk result (λ event. member_of event < self.old.members) }
        ensures raw { self.new.raw ≡ self.old.raw }
        ensures members { self.new.members ≡ self.old.members }
        ensures cursors { length self.new.cursors.items ≡ length self.old.cursors.items }
        ensures within { IsWithin (number + 1) self.new.cursors.items }
        ensures kept { IfErr result (λ error. self.new.cursors ≡ self.old.cursors) }
    {
        let choice = self.seed.below(16);
        let member = self.seed.below(u32::from(self.members)) as u8;
        if choice < 2 {
            let memory = take_out(alloc, &mut self.spare);
            cast(memory, &mut self.seed, number, member)
        } else if choice == 2 {
            let memory = take_out(alloc, &mut self.spare);
            send(memory, &mut self.seed, self.members, number, member)
        } else if choice == 3 {
            Ok(ScriptEvent::Tick(member, number / 16))
        } else if self.raw && choice == 15 {
            let memory = take_out(alloc, &mut self.spare);
            datagram(memory, &mut self.seed, self.members, member)
        } else {
            Ok(self.give(number, member))
        }
    }

    /// A packet is given to the member, by its cursor.
    fn give(&mut self, _number: u32, member: u8) -> ScriptEvent
        requires member { member < length self.old.cursors.items }
        requires within { IsWithin _number self.old.cursors.items }
        requires few { _number < 2147483647 }
        ensures made { spec.a_give member self.old.cursors.items self.old.seed.value ≡
            ((result, self.new.cursors.items), self.new.seed.value) }
        ensures of_member { member_of result ≡ member }
        ensures raw { self.new.raw ≡ self.old.raw }
        ensures members { self.new.members ≡ self.old.members }
        ensures cursors { length self.new.cursors.items ≡ length self.old.cursors.items }
        ensures within { IsWithin (_number + 1) self.new.cursors.items }
    {
        let way = self.seed.below(8);
        let (packet, cursor) = next_cursors(way, self.cursors[member as usize]);
        self.cursors[member as usize] = cursor;
        ScriptEvent::Give(packet, member)
    }
}

/// The packet that is given, and the member's cursor after it.
fn next_cursors(way: u32, cursor: u32) -> (u32, u32)
    requires { cursor < 4294967294 }
    ensures given { result ≡ spec.next_cursors way cursor }
    ensures near { result.1 ≤ cursor + 2 }
{
    match way {
        0 => (cursor + 2, cursor + 2),
        1 => (cursor.max(1), cursor.max(1)),
        2 => (cursor + 2, cursor),
        _ => (cursor + 1, cursor + 1),
    }
}

/// The bytes of a vector, which has none then.
fn take_out(alloc: Global, spare: &mut Vec<u8>) -> Vec<u8> {
    mem::replace(spare, Vec::new(alloc))
}

fn cast(
    memory: Vec<u8>,
    seed: &mut Seed,
    number: u32,
    member: u8,
) -> Result<ScriptEvent, AllocError>
    ensures made { Makes (spec.a_cast number member seed.old.value) result seed.new.value }
    ensures of_member { IfOk result (λ event. member_of event ≡ member) }
{
    Ok(ScriptEvent::Cast(member, body(memory, seed, number)?))
}

/// A send to any of the members.
fn send(
    memory: Vec<u8>,
    seed: &mut Seed,
    members: u8,
    number: u32,
    member: u8,
) -> Result<ScriptEvent, AllocError>
    requires { 1 ≤ members }
    ensures made { Makes (spec.a_send members number member seed.old.value) result seed.new.value }
    ensures of_member { IfOk result (λ event. member_of event ≡ member) }
{
    let rank = seed.below(u32::from(members));
    Ok(ScriptEvent::Send(member, rank, body(memory, seed, number)?))
}

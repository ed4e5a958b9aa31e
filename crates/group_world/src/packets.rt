//! The packets of a group.

ghost use Rattle.std.specs.Prelude.{◌≡◌, ◌+◌, ◌^◌, ◌<◌, ◌≤◌, [], ◌∷◌, ◌++◌, Some, OnOk, length, slice_get, vec_len};
ghost use Rattle.std.specs.Prelude.{vec_capacity};
ghost use Rattle.std.specs.Option.{option_map};
ghost use Rattle.packet_full.specs.Sent.{sent_packet};
ghost use Rattle.run_mean.specs.Common.{wire};
ghost use Rattle.stack_shapes.specs.Trees.{plans_tree};
ghost use Rattle.step_outputs.specs.Views.{output_meant};
ghost use Rattle.group_world.specs.Parts.{parts_from, start_of, EndAt};
ghost use Rattle.group_feed.specs.Standing.{spelled_number, spelled_of};

use msg_core::Memory;
use packet_full::PacketView;
use packet_mean::Here;
use packet_short::{put_wire, wire_room_of};
use stack_shapes::Plans;
use std::alloc::Global;
use std::marker::Model;
use step_outputs::{OutputView, Outputs};

/// The least number of bytes for which more room is made.
const LEAST_ROOM: usize = 1_048_576;

/// Every packet ever sent, as the datagram in which it was sent, in the order of output: the bytes of all, one after
/// the other, and where each ends.
#[derive(Drop)]
pub struct Packets {
    bytes: Vec<u8>,
    ends: Vec<usize>,
}

impl Model for Packets {
    ghost use Rattle.std.specs.Prelude.{ℕ, List, length};
    ghost use Rattle.group_world.specs.Parts.{parts_from, EndAt};

    ghost Value = { List (List ℕ) };

    ghost view = { λ p. parts_from p.bytes.items 0 p.ends.items };

    ghost invariant = { λ p. EndAt (length p.bytes.items) 0 p.ends.items };
}

/// Where a part begins: where the one before it ends.
fn start(ends: &[usize], index: usize) -> usize
    requires { index ≤ length ends.now }
    ensures { result ≡ start_of 0 ends.now index }
{
    if index == 0 { 0 } else { ends[index - 1] }
}

/// A part of bytes by its number, where each part ends as `ends` says.
#[tactic(auto, using(crate::proofs::Rules::of_part))]
fn part<'b>(bytes: &'b [u8], ends: &[usize], index: usize) -> &'b [u8]
    requires there { index < length ends.now }
    requires within { EndAt (length bytes.now) 0 ends.now }
    ensures { slice_get (parts_from bytes.now 0 ends.now) index ≡ Some result.now }
{
    let from = start(ends, index);
    let end = ends[index];
    &bytes[from..end]
}

/// Makes room for `more` bytes; where there is too little, for `LEAST_ROOM` bytes at least.
fn make_room(bytes: &mut Vec<u8>, more: usize) -> Result<(), Memory>
    ensures items { bytes.new.items ≡ bytes.old.items }
    ensures ok { OnOk result (vec_len bytes.new + more ≤ vec_capacity bytes.new) }
{
    if bytes.capacity() - bytes.len() < more {
        bytes.reserve(more.max(LEAST_ROOM))?;
    }
    Ok(())
}

impl Packets {
    /// No packet.
    pub fn new(alloc: Global) -> Packets
        ensures { result ≡ [] }
    {
        Packets {
            bytes: Vec::new(alloc),
            ends: Vec::new(alloc),
        }
    }

    /// Forgets all.
    pub(crate) fn clear(&mut self)
        ensures { self.new ≡ [] }
    {
        self.bytes.clear();
        self.ends.clear();
    }

    /// How many there are.
    pub fn len(&self) -> usize
        ensures count { result ≡ length self.now }
        ensures small { result < 2 ^ 63 }
    {
        self.ends.len()
    }

    /// The datagram of a packet's number, the first being 1, if there is one.
    pub fn numbered(&self, number: u32) -> Option<&[u8]>
        ensures { option_map (λ bytes. bytes.now) result ≡ spelled_number self.now number }
    {
        if number == 0 {
            return None;
        }
        let index = number as usize - 1;
        if index >= self.ends.len() {
            return None;
        }
        Some(part(&self.bytes, &self.ends, index))
    }

    /// Puts a packet that a member sends after the others, as it is sent.
    #[inline(always)]
    fn put(&mut self, plans: &Plans, here: &Here, packet: &PacketView<'_>) -> Result<(), Memory>
        ensures { OnOk result (self.new ≡ self.old ++ wire (plans_tree plans.now)
            (sent_packet here.now packet.now.dest packet.now.headers.now packet.now.body.now) packet.now.plan ∷ []) }
    {
        self.ends.reserve(1)?;
        make_room(&mut self.bytes, wire_room_of(packet))?;
        put_wire(plans, here, packet, &mut self.bytes);
        let end = self.bytes.len();
        self.ends.push_reserved(end);
        Ok(())
    }

    /// Puts an output of a step after the others if it is a packet.
    #[inline(always)]
    fn put_output(
        &mut self,
        plans: &Plans,
        here: &Here,
        output: &OutputView<'_>,
    ) -> Result<(), Memory>
        ensures { OnOk result (self.new ≡ self.old ++
            spelled_of (plans_tree plans.now) (output_meant here.now output.now ∷ [])) }
    {
        match output {
            OutputView::Packet(packet) => self.put(plans, here, packet),
            _ => Ok(()),
        }
    }

    /// Puts the packets among the outputs of a step after the others, in order and as they are sent.
    #[inline(always)]
    pub fn keep(&mut self, plans: &Plans, out: &Outputs) -> Result<(), Memory>
        ensures { OnOk result (self.new ≡ self.old ++ spelled_of (plans_tree plans.now) out.now.outputs) }
    {
        let here = out.here();
        for k in 0..out.len() {
            self.put_output(plans, &here, &out.at(k))?;
        }
        Ok(())
    }
}

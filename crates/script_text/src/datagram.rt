//! Bodies and datagrams that are made from a seed.
ghost use Rattle.std.specs.Prelude.{◌≡◌, ◌+◌, ◌%◌, ◌<◌, ◌≤◌, ◌++◌, map, IfOk};
ghost use Rattle.std.specs.List.{range_with_len};
ghost use Rattle.script_mean.specs.Event.{member_of};
ghost use Rattle.script_mean.specs.Generate as spec;
ghost use Rattle.script_text.specs.Making.{Makes};
ghost use Rattle.msg_core.specs.View.{most_members};

use crate::seed::Seed;
use script_mean::{Bytes, ScriptEvent};
use std::alloc::AllocError;
use view_masks::all_of;

/// Up to 63 bytes, which count up from the event's number, in the memory of a vector.
pub(crate) fn body(memory: Vec<u8>, seed: &mut Seed, number: u32) -> Result<Bytes, AllocError>
    ensures { Makes (spec.a_body number seed.old.value) result seed.new.value }
{
    let size = seed.below(64);
    Ok(Bytes::of(counting(memory, number, size)?))
}

fn counting(memory: Vec<u8>, number: u32, size: u32) -> Result<Vec<u8>, AllocError>
    ensures { IfOk result (λ bytes. bytes.items ≡ map (λ byte. byte % 256) (range_with_len number size)) }
{
    let mut bytes = memory;
    bytes.clear();
    bytes.reserve(size as usize)?;
    for place in 0..size {
        bytes.push_reserved(((u64::from(number) + u64::from(place)) % 256) as u8);
    }
    Ok(bytes)
}

/// A datagram that may be stray, in the memory of a vector.
pub(crate) fn datagram(
    memory: Vec<u8>,
    seed: &mut Seed,
    members: u8,
    member: u8,
) -> Result<ScriptEvent, AllocError>
    requires { (1 ≤ members) × (members ≤ most_members) }
    ensures made { Makes (spec.a_datagram members member seed.old.value) result seed.new.value }
    ensures of_member { IfOk result (λ event. member_of event ≡ member) }
{
    let form = seed.below(2);
    let sender = seed.below(u32::from(members)) as u8;
    let count = seed.below(64);
    let mut bytes = preamble(memory, form, members, sender)?;
    add_small(&mut bytes, seed, count)?;
    let way = seed.below(8);
    cut_short(&mut bytes, seed, way);
    Ok(ScriptEvent::Raw(member, Bytes::of(bytes)))
}

/// The preamble of a datagram.
fn preamble(memory: Vec<u8>, form: u32, members: u8, sender: u8) -> Result<Vec<u8>, AllocError>
    requires { members ≤ most_members }
    ensures { IfOk result (λ bytes. bytes.items ≡ spec.a_preamble form members sender) }
{
    let mut bytes = memory;
    bytes.clear();
    bytes.push(if form == 0 { 229 } else { 230 })?;
    bytes.extend_from_slice(&1_u32.to_be_bytes())?;
    bytes.extend_from_slice(&1_u32.to_be_bytes())?;
    bytes.extend_from_slice(&0_u32.to_be_bytes())?;
    bytes.extend_from_slice(&all_of(members).to_be_bytes())?;
    bytes.push(sender)?;
    bytes.push(255)?;
    Ok(bytes)
}

/// Adds `count` bytes below 4.
fn add_small(bytes: &mut Vec<u8>, seed: &mut Seed, count: u32) -> Result<(), AllocError>
    ensures { IfOk result (λ done. (bytes.new.items ≡ bytes.old.items ++ (spec.draws count 4 seed.old.value).0) ×
        (seed.new.value ≡ (spec.draws count 4 seed.old.value).1)) }
{
    for _ in 0..count {
        bytes.push(seed.below(4) as u8)?;
    }
    Ok(())
}

/// One time in eight, fewer than twenty of the bytes are left.
fn cut_short(bytes: &mut Vec<u8>, seed: &mut Seed, way: u32)
    ensures { spec.cut_short bytes.old.items way seed.old.value ≡ (bytes.new.items, seed.new.value) }
{
    if way == 0 {
        let left = seed.below(20);
        bytes.truncate(left as usize);
    }
}

//! Packets to their short forms.

ghost use Rattle.std.specs.Prelude.{◌≡◌, ◌+◌, ◌*◌, ◌≤◌, ◌∷◌, ◌++◌, [], length, flat_map, vec_len, vec_capacity};
ghost use Rattle.msg_core.specs.declared.packet.Dest.{Dest};
ghost use Rattle.packet_full.specs.Sent.{sent_packet};
ghost use Rattle.packet_mean.specs.Plan.{variable};
ghost use Rattle.packet_mean.specs.Spelling as spelling;
ghost use Rattle.packet_mean.specs.declared.here.Here.{Here};
ghost use Rattle.stack_shapes.specs.Lists.{plan_tree};
ghost use Rattle.packet_short.specs.Shortened.{PutsVariable, short_room};

use msg_core::{Fields, Headers};
use packet_full::{PacketView, SHORT_FORM, put_body, put_number, put_preamble};
use packet_mean::Here;
use stack_shapes::Plan;

/// The preamble of a packet, and the number of its plan.
const FRONT_BYTES: usize = 20;

/// The most bytes that a header is given, as in the full form.
const HEADER_BYTES: usize = 17;

/// Puts a number, unless it is planned as a constant.
fn put_variable(planned: Option<u32>, number: u32, into: &mut Vec<u8>)
    requires { vec_len into.old + 4 ≤ vec_capacity into.old }
    ensures items { into.new.items ≡ into.old.items ++
        flat_map spelling.number_bytes (variable (planned ∷ []) (number ∷ [])) }
    ensures len { vec_len into.new ≤ vec_len into.old + 4 }
    ensures capacity { vec_capacity into.new ≡ vec_capacity into.old }
{
    match planned {
        Some(_) => {}
        None => put_number(number, into),
    }
}

/// Puts the variable fields of a header, and answers what is planned after them.
fn put_fields<'a>(
    planned: &'a [Option<u32>],
    fields: &Fields,
    into: &mut Vec<u8>,
) -> &'a [Option<u32>]
    requires { vec_len into.old + 16 ≤ vec_capacity into.old }
    ensures items { PutsVariable planned.now fields.now result.now into.old.items into.new.items }
    ensures len { vec_len into.new ≤ vec_len into.old + 16 }
    ensures capacity { vec_capacity into.new ≡ vec_capacity into.old }
{
    let mut left = planned;
    for place in 0..fields.len() {
        let Some((first, rest)) = left.split_first() else {
            return left
        };
        put_variable(*first, fields.at(place), into);
        left = rest;
    }
    left
}

/// Puts the fields of headers that a plan leaves variable.
fn put_headers(plan: &Plan, headers: &Headers, into: &mut Vec<u8>)
    requires { vec_len into.old + 16 * length headers.now ≤ vec_capacity into.old }
    ensures items { into.new.items ≡ into.old.items ++
        flat_map spelling.number_bytes (variable plan.now.fields.items (flat_map (λ h. h.fields) headers.now)) }
    ensures len { vec_len into.new ≤ vec_len into.old + 16 * length headers.now }
    ensures capacity { vec_capacity into.new ≡ vec_capacity into.old }
{
    let mut left = plan.fields.as_slice();
    for header in headers.slice() {
        left = put_fields(left, &header.fields, into);
    }
}

/// How much room the short form of these parts of a packet is given.
pub fn short_room_of(headers: &Headers, body: &[u8]) -> usize
    ensures { (here : Here) → (dest : Dest) → result ≡ short_room (sent_packet here dest headers.now body.now) }
{
    headers.len() as usize * HEADER_BYTES + FRONT_BYTES + body.len()
}

/// Puts the short form of a packet that a member sends, under a plan and its number, whatever plan the packet names,
/// after what a vector holds. It is put as the plan says, without asking whether it fits. It takes no memory: there
/// must be room for 17 bytes of each header, the body and 20 more.
pub fn put_short(plan: &Plan, number: u8, here: &Here, packet: &PacketView<'_>, into: &mut Vec<u8>)
    requires { vec_len into.old + short_room
        (sent_packet here.now packet.now.dest packet.now.headers.now packet.now.body.now) ≤ vec_capacity into.old }
    ensures items { into.new.items ≡ into.old.items ++ spelling.short_bytes number (plan_tree plan.now)
        (sent_packet here.now packet.now.dest packet.now.headers.now packet.now.body.now) }
    ensures capacity { vec_capacity into.old ≤ vec_capacity into.new }
{
    put_preamble(SHORT_FORM, here, packet.dest, into);
    into.push_reserved(number);
    put_headers(plan, packet.headers, into);
    put_body(packet.body, into);
}

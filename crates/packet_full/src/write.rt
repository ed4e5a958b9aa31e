//! Packets to bytes.

ghost use Rattle.std.specs.Prelude.{◌≡◌, ◌+◌, ◌*◌, ◌≤◌, ◌++◌, [], length, vec_len, vec_capacity};
ghost use Rattle.std.specs.List.{flat_map};
ghost use Rattle.packet_mean.specs.Spelling as spelling;
ghost use Rattle.packet_mean.specs.Spelling.{full_form};
ghost use Rattle.msg_core.specs.declared.packet.Dest.{Dest};
ghost use Rattle.packet_mean.specs.declared.here.Here.{Here};
ghost use Rattle.packet_full.specs.Room.{room_needed};
ghost use Rattle.packet_full.specs.Sent.{sent_packet};

use crate::front::{EVERYONE, FULL_FORM, PREAMBLE_BYTES};
use msg_core::{Dest, Header, Headers};
use packet_mean::Here;
use std::mem::replace;

/// The most bytes of a header: its tag and four numbers.
const HEADER_BYTES: usize = 17;

/// The byte that names a destination.
fn dest_byte(dest: Dest) -> u8
    ensures { result ≡ spelling.dest_byte dest }
{
    match dest {
        Dest::All => EVERYONE,
        Dest::Rank(rank) => rank,
    }
}

/// Puts a number after the others, the highest byte first.
pub fn put_number(number: u32, into: &mut Vec<u8>)
    requires { vec_len into.old + 4 ≤ vec_capacity into.old }
    ensures items { into.new.items ≡ into.old.items ++ spelling.number_bytes number }
    ensures len { vec_len into.new ≡ vec_len into.old + 4 }
    ensures capacity { vec_capacity into.new ≡ vec_capacity into.old }
{
    let [first, second, third, fourth] = number.to_be_bytes();
    into.push_reserved(first);
    into.push_reserved(second);
    into.push_reserved(third);
    into.push_reserved(fourth);
}

/// Puts the preamble of what a member sends to a destination in a form: 19 bytes.
pub fn put_preamble(form: u8, here: &Here, dest: Dest, into: &mut Vec<u8>)
    requires { vec_len into.old + 19 ≤ vec_capacity into.old }
    ensures items { into.new.items ≡ into.old.items ++ spelling.preamble_bytes form (sent_packet here.now dest [] []) }
    ensures len { vec_len into.new ≡ vec_len into.old + 19 }
    ensures capacity { vec_capacity into.new ≡ vec_capacity into.old }
{
    into.push_reserved(form);
    put_number(here.group, into);
    put_number(here.stamp, into);
    put_number(here.view.ltime, into);
    put_number(here.view.mask, into);
    into.push_reserved(here.rank);
    into.push_reserved(dest_byte(dest));
}

/// Puts a header: its tag, and its numbers.
fn put_header(header: &Header, into: &mut Vec<u8>)
    requires { vec_len into.old + 17 ≤ vec_capacity into.old }
    ensures items { into.new.items ≡ into.old.items ++ spelling.header_bytes header.now }
    ensures len { vec_len into.new ≤ vec_len into.old + 17 }
    ensures capacity { vec_capacity into.new ≡ vec_capacity into.old }
{
    into.push_reserved(header.tag);
    if header.fields.len() == 0 {
        return;
    }
    let fields = header.fields.copy();
    for k in 0..fields.len() {
        put_number(fields.at(k), into);
    }
}

/// Puts headers, the lowest layer's first.
fn put_headers(headers: &Headers, into: &mut Vec<u8>)
    requires { vec_len into.old + 17 * length headers.now ≤ vec_capacity into.old }
    ensures items { into.new.items ≡ into.old.items ++ flat_map spelling.header_bytes headers.now }
    ensures len { vec_len into.new ≤ vec_len into.old + 17 * length headers.now }
    ensures capacity { vec_capacity into.new ≡ vec_capacity into.old }
{
    for header in headers.slice() {
        put_header(header, into);
    }
}

/// Puts the bytes of a body.
pub fn put_body(body: &[u8], into: &mut Vec<u8>)
    requires { vec_len into.old + length body.now ≤ vec_capacity into.old }
    ensures items { into.new.items ≡ into.old.items ++ body.now }
    ensures capacity { vec_capacity into.old ≤ vec_capacity into.new }
{
    match into.extend_from_slice(body) {
        Ok(()) => {}
        Err(_) => unreachable!(),
    }
}

/// Puts in full what comes before a packet's body. Meanwhile the vector is held as a value, so that the place of its
/// bytes is looked up once.
fn put_front(here: &Here, dest: Dest, headers: &Headers, into: &mut Vec<u8>)
    requires { vec_len into.old + 19 + 17 * length headers.now ≤ vec_capacity into.old }
    ensures items { into.new.items ≡ into.old.items ++
        spelling.preamble_bytes full_form (sent_packet here.now dest [] [])
        ++ flat_map spelling.header_bytes headers.now }
    ensures len { vec_len into.new ≤ vec_len into.old + 19 + 17 * length headers.now }
    ensures capacity { vec_capacity into.new ≡ vec_capacity into.old }
{
    let none = Vec::new(*into.allocator());
    let mut bytes = replace(into, none);
    put_preamble(FULL_FORM, here, dest, &mut bytes);
    put_headers(headers, &mut bytes);
    *into = bytes;
}

/// Puts in full what a member sends to a destination, with these headers and this body, after what a vector holds. It
/// takes no memory: there must be room for 17 bytes of each header, and for the rest.
pub fn put_full_of(here: &Here, dest: Dest, headers: &Headers, body: &[u8], into: &mut Vec<u8>)
    requires { vec_len into.old + room_needed (sent_packet here.now dest headers.now body.now) ≤ vec_capacity into.old }
    ensures items { into.new.items ≡ into.old.items ++
        spelling.full_bytes (sent_packet here.now dest headers.now body.now) }
    ensures capacity { vec_capacity into.old ≤ vec_capacity into.new }
{
    put_front(here, dest, headers, into);
    put_body(body, into);
}

/// How much room these parts of a packet are given.
pub fn room_of(headers: &Headers, body: &[u8]) -> usize
    ensures { (here : Here) → (dest : Dest) → result ≡ room_needed (sent_packet here dest headers.now body.now) }
{
    headers.len() as usize * HEADER_BYTES + PREAMBLE_BYTES + body.len()
}

//! `library_calls`: makes the calls of the library for applications, on two members of one group, and writes what each
//! answers and tells.
#![tactic(auto)]

use peer_handle::{Handle, Order, ToldEvent, ToldFault, close, next, open, opening_number, step};
use script_mean::GroupLine;
use std::alloc::Global;
use std::io;
use view_core::Input;

/// A layer that numbers casts, and passes all else.
const LAYERS: &[u8] = b"layer cnt {
  state int k;
  header num(seq) passes;
  down Cast(p, m) { down Cast(p, m) with num(k); set k = (k + 1); }
  up Cast(o, m) with num(seq) { up Cast(o, m); }
}
stack { cnt; }
";

/// The group: two members.
const LINE: GroupLine = GroupLine {
    group: 1,
    stamp: 7,
    members: 2,
};

/// An event before the first.
const NO_EVENT: ToldEvent = ToldEvent {
    kind: 0,
    peer: 0,
    to: 0,
    number: 0,
    plan: 0,
    length: 0,
};

/// Opens a member, and writes the status, and why a file is refused.
fn try_open(
    rt: &impl Print,
    alloc: Global,
    h: &mut Handle,
    layers: &[u8],
    id: u8,
) -> io::Result<()> {
    let order = Order {
        layers,
        bypass: true,
        line: LINE,
        id,
    };
    let mut fault = ToldFault {
        cause: 0,
        a: 0,
        b: 0,
        length: 0,
    };
    let mut sentence = [b'.'; 8];
    let status = opening_number(open(alloc, h, order, &mut fault, &mut sentence));
    println!(rt; "open {id}: {status}")?;
    if status == 3 {
        let ToldFault {
            cause,
            a,
            b,
            length,
        } = fault;
        println!(rt; "cause {cause} {a} {b}, {length} bytes")?;
        write_bytes(rt, &sentence)?;
    }
    Ok(())
}

/// Writes bytes as numbers.
fn write_bytes(rt: &impl Print, bytes: &[u8]) -> io::Result<()> {
    for byte in bytes {
        print!(rt; " {byte}")?;
    }
    println!(rt; "")
}

/// Writes what a call of `next` told.
fn write_event(rt: &impl Print, status: u32, event: ToldEvent, room: &[u8]) -> io::Result<()> {
    let ToldEvent {
        kind,
        peer,
        to,
        number,
        plan,
        length,
    } = event;
    println!(rt;
        "next: {status}, kind {kind} peer {peer} to {to} number {number} plan {plan} length {length}"
    )?;
    write_bytes(rt, room)
}

/// Makes a step, and writes the status.
fn try_step(rt: &impl Print, alloc: Global, h: &mut Handle, input: Input<'_>) -> io::Result<()> {
    let status = step(alloc, h, input);
    println!(rt; "step: {status}")
}

/// Asks for the next output with a room of three bytes, and then with one that is large enough.
fn try_next(
    rt: &impl Print,
    alloc: Global,
    h: &mut Handle,
    event: &mut ToldEvent,
    room: &mut [u8],
) -> io::Result<()> {
    let mut small = [0; 3];
    let status = next(alloc, h, event, &mut small);
    write_event(rt, status, *event, &small)?;
    let status = next(alloc, h, event, room);
    write_event(rt, status, *event, room)
}

fn main(rt: HostRuntime) -> io::Result<()> {
    let alloc = rt.alloc();
    let mut first = Handle::none(alloc);
    let mut second = Handle::none(alloc);
    try_step(&rt, alloc, &mut first, Input::Leave)?;
    try_open(&rt, alloc, &mut first, b"layer cnt {", 0)?;
    try_open(&rt, alloc, &mut first, LAYERS, 2)?;
    try_open(&rt, alloc, &mut first, LAYERS, 0)?;
    try_open(&rt, alloc, &mut first, LAYERS, 0)?;
    try_open(&rt, alloc, &mut second, LAYERS, 1)?;
    try_step(&rt, alloc, &mut first, Input::Cast(b"hi"))?;
    let mut event = NO_EVENT;
    let mut datagram = [0; 40];
    try_next(&rt, alloc, &mut first, &mut event, &mut datagram)?;
    if let Some(bytes) = datagram.get(..event.length) {
        try_step(&rt, alloc, &mut second, Input::Datagram(bytes))?;
    }
    let mut room = [0; 4];
    try_next(&rt, alloc, &mut second, &mut event, &mut room)?;
    try_next(&rt, alloc, &mut first, &mut event, &mut room)?;
    try_step(&rt, alloc, &mut second, Input::Datagram(b"hi"))?;
    try_step(&rt, alloc, &mut second, Input::Tick(5))?;
    try_step(&rt, alloc, &mut second, Input::Send(0, b"hi"))?;
    println!(&rt;
        "close: {} {}",
        close(alloc, &mut first),
        close(alloc, &mut first)
    )?;
    println!(&rt; "close: {}", close(alloc, &mut second))
}

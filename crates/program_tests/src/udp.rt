// Over the loopback, at an address of this process alone: what the system's sockets carry.
ghost use Rattle.std.specs.Prelude.{◌≡◌, ◌≤◌, ◌<◌, ℕ, IfOk, IsSome, IsSomeAnd, length};

use live_outside::LiveLinks;
use outside::{LONGEST_DATAGRAM, LinkError, Links, Peer};
use std::alloc::{AllocError, Global};
use std::process;
use std::test::Fail;
use udp_link::UdpLinks;

// A port of the loopback, at one of two addresses of this process. Those of another process on this machine are others.
fn peer(process: u32, number: u32, port: u16) -> Peer
    requires { number < 2 }
{
    Peer {
        ip: [
            127,
            (process / 65536 % 64 + number * 64) as u8,
            (process / 256 % 256) as u8,
            (process % 256) as u8,
        ],
        port,
    }
}

// As many bytes as a datagram has at most, each unlike its neighbours.
fn pattern(alloc: Global) -> Result<Vec<u8>, AllocError>
    ensures { IfOk result (λ bytes. length bytes.items ≡ LONGEST_DATAGRAM) }
{
    let mut bytes = vec![in alloc; 0; LONGEST_DATAGRAM]?;
    for (place, byte) in bytes.iter_mut().enumerate() {
        *byte = (place % 251) as u8;
    }
    Ok(bytes)
}

// A datagram for the member, which is waited for a thousand times, a moment each.
fn receive<N: LiveLinks>(
    links: &mut N,
    member: u8,
    into: &mut [u8],
) -> Result<Option<usize>, LinkError>
    requires listens { IsSome (N.listening links.old member) }
    requires room { length into.old ≡ LONGEST_DATAGRAM }
    ensures listening { (m : ℕ) → N.listening links.new m ≡ N.listening links.old m }
{
    'turns: for _ in 0..1000 {
        let got = links.recv(member, into)?;
        if got.is_some() {
            return Ok(got);
        }
        links.wait();
    }
    Ok(None)
}

// Whether a datagram passes whole from a member to another, and nothing else waits for that. Before it there is nothing
// to wait for, and a wait ends all the same.
fn passes<N: LiveLinks>(
    links: &mut N,
    from: u8,
    to: u8,
    bytes: &[u8],
    into: &mut [u8],
) -> Result<bool, LinkError>
    requires from { IsSomeAnd (N.listening links.old from) (λ peers. to < peers) }
    requires to { IsSome (N.listening links.old to) }
    requires size { length bytes.now ≤ LONGEST_DATAGRAM }
    requires room { length into.old ≡ LONGEST_DATAGRAM }
    ensures listening { (m : ℕ) → N.listening links.new m ≡ N.listening links.old m }
{
    links.wait();
    links.send(from, to, bytes)?;
    links.wait();
    let got = receive(links, to, into)?;
    let whole = got == Some(bytes.len()) && into.get(..bytes.len()) == Some(bytes);
    let alone = links.recv(to, into)?.is_none();
    Ok(whole && alone)
}

// Whether datagrams of each size pass between two of three members at two addresses, and two that follow one another in
// their order.
fn sizes_pass<N: LiveLinks>(
    links: &mut N,
    peers: &[Peer; 3],
    pattern: &[u8],
    into: &mut [u8],
) -> Result<bool, LinkError>
    requires pattern { length pattern.now ≡ LONGEST_DATAGRAM }
    requires room { length into.old ≡ LONGEST_DATAGRAM }
{
    links.listen(0, peers)?;
    links.listen(1, peers)?;
    links.listen(2, peers)?;
    let none = passes(links, 0, 1, &pattern[..0], into)?;
    let some = passes(links, 1, 0, b"nineteen bytes long".as_slice(), into)?;
    let most = passes(links, 0, 1, pattern, into)?;
    links.send(0, 2, b"long")?;
    links.send(1, 2, b"it")?;
    let first = receive(links, 2, into)? == Some(4);
    let second = receive(links, 2, into)? == Some(2);
    let following = into.get(..4) == Some(b"itng".as_slice());
    Ok(none && some && most && first && second && following)
}

// Whether listening at a place that is taken fails, a send to no port fails, and members are heard that moved or that
// the other doesn't know.
fn places_are_their_own<N: LiveLinks>(
    links: &mut N,
    places: [Peer; 3],
    into: &mut [u8],
) -> Result<bool, LinkError>
    requires room { length into.old ≡ LONGEST_DATAGRAM }
{
    let [first, second, third] = places;
    let nowhere = Peer {
        ip: first.ip,
        port: 0,
    };
    links.listen(0, &[first, first, nowhere])?;
    let taken = links.listen(1, &[first, first]) == Err(LinkError::Failed);
    let nowhere = links.send(0, 2, b"hello") == Err(LinkError::Failed);
    links.listen(0, &[second, first])?;
    links.listen(1, &[second, first])?;
    let moved = passes(links, 0, 1, b"hello", into)? && passes(links, 1, 0, b"there", into)?;
    links.listen(1, &[second, third])?;
    let stranger = passes(links, 1, 0, b"hello", into)?;
    Ok(taken && nowhere && moved && stranger)
}

#[test]
fn datagrams_over_the_loopback(rt: HostRuntime) -> Result<(), Fail> {
    let alloc = rt.alloc();
    let process = process::id(rt.process());
    let pattern = pattern(alloc)?;
    let mut room = vec![in alloc; 0; LONGEST_DATAGRAM]?;
    let into = room.as_mut_slice();
    let mut links = UdpLinks::new(alloc, &rt)?;
    let peers = [
        peer(process, 0, 47320),
        peer(process, 1, 47320),
        peer(process, 0, 47321),
    ];
    assert!(rt; sizes_pass(&mut links, &peers, &pattern, into) == Ok(true));
    assert!(rt; links.faults() == 0 && links.send_faults() == 0);
    let first = peer(process, 0, 47322);
    let places = [first, peer(process, 0, 47323), peer(process, 1, 47323)];
    assert!(rt; places_are_their_own(&mut links, places, into) == Ok(true));
    assert!(rt; links.faults() == 1 && links.send_faults() == 1);
    Ok(())
}

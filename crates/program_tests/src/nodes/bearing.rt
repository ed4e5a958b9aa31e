//! A node that tolerates failed receives, or doesn't, over a network in memory: its lines were worked out by hand from
//! the definitions.

use super::served::{PLAN, SERVED};
use crate::runs::{COUNTER, Expected, Left, left_over, pair, words};
use outside::{MemClock, MemLinks, MemShelf};
use std::alloc::{AllocError, Global};
use std::test::Fail;

/// What is written before the first receives.
const TICKS: &[u8] = b"> tick 0 5\n> tick 1 5\n> tick 2 5\n";

/// What a node of two turns writes, where the second receive failed and was tolerated.
const BORNE: &[u8] =
    b"> tick 0 5\n> tick 1 5\n> tick 2 5\ndeaf 1\n> cast 0 6869\npacket 1 0 all cnt.num(0) 6869\n> tick 0 6\n> tick 1 6\n> tick 2 6\n> raw 1 e50000000100000007000000000000000700ff01000000006869\ndeliver 1 cast 0 6869\n> raw 2 e50000000100000007000000000000000700ff01000000006869\ndeliver 2 cast 0 6869\n> cast 2 7a\npacket 2 2 all cnt.num(0) 7a\nend 10\n";

/// The same in bypass mode, where both casts and their deliveries are common: each packet goes short.
const BORNE_SHORT: &[u8] =
    b"> tick 0 5\n> tick 1 5\n> tick 2 5\ndeaf 1\n> cast 0 6869\npacket 1 0 all cnt.num(0) 6869\n> tick 0 6\n> tick 1 6\n> tick 2 6\n> raw 1 e60000000100000007000000000000000700ff00000000006869\ndeliver 1 cast 0 6869\n> raw 2 e60000000100000007000000000000000700ff00000000006869\ndeliver 2 cast 0 6869\n> cast 2 7a\npacket 2 2 all cnt.num(0) 7a\nend 10\n";

/// Links of which the third listen fails or not, and the second receive.
fn failing(alloc: Global, listen: bool, receive: bool) -> Result<MemLinks, AllocError> {
    let listens = vec![in alloc; false, false, listen]?;
    let receives = vec![in alloc; false, receive]?;
    Ok(MemLinks::new(alloc, Vec::new(alloc), listens, receives))
}

/// Two turns of the counter layer over links.
fn served(
    alloc: Global,
    run: &str,
    patience: &str,
    links: &mut MemLinks,
) -> Result<Left, AllocError> {
    let words = words(
        alloc,
        &["node", "f", "p", "--turns=2", "--me=0,1,2", run, patience],
    )?;
    let mut shelf = MemShelf::new(pair(alloc, COUNTER, "p", PLAN)?, Vec::new(alloc));
    let mut clock = MemClock::new(vec![in alloc; 5, 6]?);
    left_over(
        alloc,
        &words,
        &mut shelf,
        Vec::new(alloc),
        links,
        &mut clock,
    )
}

#[test]
fn serves_and_bears(rt: HostRuntime) -> Result<(), Fail> {
    let alloc = rt.alloc();
    let layered = "--run=layered";
    let bypass = "--run=bypass";
    let cases: [(&str, &str, bool, bool, u8, &[u8], &[u8]); 5] = [
        (layered, "--patience=0", false, false, 0, SERVED, b""),
        (
            layered,
            "--patience=0",
            false,
            true,
            6,
            TICKS,
            b"link fault\n",
        ),
        (layered, "--patience=1", false, true, 0, BORNE, b""),
        (bypass, "--patience=1", false, true, 0, BORNE_SHORT, b""),
        (
            layered,
            "--patience=9",
            true,
            false,
            6,
            b"",
            b"link fault\n",
        ),
    ];
    for (run, patience, listen_fails, receive_fails, status, out, err) in cases {
        let mut links = failing(alloc, listen_fails, receive_fails)?;
        let expected = Expected { status, out, err };
        assert!(rt; served(alloc, run, patience, &mut links)?.is(expected));
    }
    Ok(())
}

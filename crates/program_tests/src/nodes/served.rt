//! A node over memory.

use crate::runs::{COUNTER, Left, left_on, pair, run_over, words};
use outside::{Fate, MemClock, MemLinks, MemShelf, MemSink};
use std::alloc::{AllocError, Global};

pub(crate) const PLAN: &[u8] =
    b"group 1 stamp 7 members 3\npeer 0 127.0.0.1:4000\npeer 1 127.0.0.1:4001\npeer 2 127.0.0.1:4002\nturn 0 cast 0 6869\nturn 1 cast 2 7a\n";

/// What a node of two turns writes, where nothing fails.
pub(crate) const SERVED: &[u8] =
    b"> tick 0 5\n> tick 1 5\n> tick 2 5\n> cast 0 6869\npacket 1 0 all cnt.num(0) 6869\n> tick 0 6\n> tick 1 6\n> tick 2 6\n> raw 1 e50000000100000007000000000000000700ff01000000006869\ndeliver 1 cast 0 6869\n> raw 2 e50000000100000007000000000000000700ff01000000006869\ndeliver 2 cast 0 6869\n> cast 2 7a\npacket 2 2 all cnt.num(0) 7a\nend 10\n";

/// What is to fail, or to become of datagrams, in a run of the node; and what its clock shows.
#[derive(Drop)]
pub(crate) struct Case {
    pub turns: &'static str,
    pub reads: Vec<bool>,
    pub puts: Vec<Option<u64>>,
    pub says: Vec<Option<u64>>,
    pub fates: Vec<Fate>,
    pub listens: Vec<bool>,
    pub receives: Vec<bool>,
    pub moments: Vec<u32>,
}

/// A case in which nothing fails, of two turns.
pub(crate) fn nothing_fails(alloc: Global) -> Result<Case, AllocError> {
    Ok(Case {
        turns: "--turns=2",
        reads: Vec::new(alloc),
        puts: Vec::new(alloc),
        says: Vec::new(alloc),
        fates: Vec::new(alloc),
        listens: Vec::new(alloc),
        receives: Vec::new(alloc),
        moments: vec![in alloc; 5, 6, 7]?,
    })
}

/// Runs the node of a case.
pub(crate) fn served(alloc: Global, case: Case) -> Result<Left, AllocError> {
    let words = words(
        alloc,
        &["node", "f", "p", case.turns, "--me=0,1,2", "--run=layered"],
    )?;
    let mut shelf = MemShelf::new(pair(alloc, COUNTER, "p", PLAN)?, case.reads);
    let mut out = MemSink::new(alloc, case.puts);
    let mut err = MemSink::new(alloc, case.says);
    let mut links = MemLinks::new(alloc, case.fates, case.listens, case.receives);
    let mut clock = MemClock::new(case.moments);
    let status = run_over(
        alloc, &words, &mut shelf, &mut out, &mut err, &mut links, &mut clock,
    );
    left_on(alloc, status, &out, &err)
}

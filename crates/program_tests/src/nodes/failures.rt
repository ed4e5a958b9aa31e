//! Nodes whose outside fails.

use super::served::{Case, SERVED, nothing_fails, served};
use crate::runs::Left;
use outside::Fate;
use std::alloc::{AllocError, Global};
use std::test::Fail;

/// What a node of two turns writes, where the first and the last of its four sendings fail.
const LOST: &[u8] =
    b"> tick 0 5\n> tick 1 5\n> tick 2 5\n> cast 0 6869\npacket 1 0 all cnt.num(0) 6869\nlost 1\n> tick 0 6\n> tick 1 6\n> tick 2 6\n> raw 2 e50000000100000007000000000000000700ff01000000006869\ndeliver 2 cast 0 6869\n> cast 2 7a\npacket 2 2 all cnt.num(0) 7a\nlost 2\nend 9\n";

/// Three turns, where the first datagram is lost, the second comes twice in one turn, and the last overtakes.
const UNEVEN: &[u8] =
    b"> tick 0 5\n> tick 1 5\n> tick 2 5\n> cast 0 6869\npacket 1 0 all cnt.num(0) 6869\n> tick 0 6\n> tick 1 6\n> tick 2 6\n> raw 2 e50000000100000007000000000000000700ff01000000006869\ndeliver 2 cast 0 6869\n> raw 2 e50000000100000007000000000000000700ff01000000006869\ndeliver 2 cast 0 6869\n> cast 2 7a\npacket 2 2 all cnt.num(0) 7a\n> tick 0 7\n> tick 1 7\n> tick 2 7\n> raw 0 e50000000100000007000000000000000702ff01000000007a\ndeliver 0 cast 2 7a\n> raw 1 e50000000100000007000000000000000702ff01000000007a\ndeliver 1 cast 2 7a\nend 15\n";

/// What a node of two turns writes where nothing fails and the clock goes back.
const BACK: &[u8] =
    b"> tick 0 6\n> tick 1 6\n> tick 2 6\n> cast 0 6869\npacket 1 0 all cnt.num(0) 6869\n> tick 0 5\n> tick 1 5\n> tick 2 5\n> raw 1 e50000000100000007000000000000000700ff01000000006869\ndeliver 1 cast 0 6869\n> raw 2 e50000000100000007000000000000000700ff01000000006869\ndeliver 2 cast 0 6869\n> cast 2 7a\npacket 2 2 all cnt.num(0) 7a\nend 10\n";

/// How many lines SERVED has.
const LINES: usize = 15;

/// The first `lines` lines of a text, and `more` bytes of the next.
fn front(text: &[u8], lines: usize, more: usize) -> &[u8] {
    let mut left = lines;
    let mut end = 0;
    for at in 0..text.len() {
        if left == 0 {
            break;
        }
        if text[at] == b'\n' {
            left -= 1;
            end = at + 1;
        }
    }
    text.get(..end.saturating_add(more)).unwrap_or(text)
}

#[test]
fn each_put_fails_once(rt: HostRuntime) -> Result<(), Fail> {
    let alloc = rt.alloc();
    for put in 0..LINES {
        let mut case = nothing_fails(alloc)?;
        for _ in 0..put {
            case.puts.push(None)?;
        }
        case.puts.push(Some(3))?;
        let left = served(alloc, case)?;
        assert_eq!(rt; left.status, 5);
        assert_eq!(rt; left.out.as_slice(), front(SERVED, put, 3));
        assert_eq!(rt; left.err.as_slice(), b"write fault\n".as_slice());
    }
    Ok(())
}

fn reads_fail(alloc: Global, reads: Vec<bool>) -> Result<Left, AllocError> {
    let mut case = nothing_fails(alloc)?;
    case.reads = reads;
    served(alloc, case)
}

#[test]
fn each_read_fails_once(rt: HostRuntime) -> Result<(), Fail> {
    let alloc = rt.alloc();
    for second in [false, true] {
        let reads = vec![in alloc; !second, second]?;
        let left = reads_fail(alloc, reads)?;
        assert_eq!(rt; left.status, 4);
        assert_eq!(rt; left.out.as_slice(), b"".as_slice());
        assert_eq!(rt; left.err.as_slice(), b"read fault\n".as_slice());
    }
    Ok(())
}

/// Whether a case leaves this.
fn leaves(
    alloc: Global,
    case: Case,
    status: u8,
    out: &[u8],
    err: &[u8],
) -> Result<bool, AllocError> {
    let left = served(alloc, case)?;
    Ok(left.status == status && left.out.as_slice() == out && left.err.as_slice() == err)
}

#[test]
fn sendings_fail(rt: HostRuntime) -> Result<(), Fail> {
    let alloc = rt.alloc();
    let mut lost = nothing_fails(alloc)?;
    lost.fates = vec![in alloc; Fate::Fails, Fate::Once, Fate::Once, Fate::Fails]?;
    assert!(rt; leaves(alloc, lost, 0, LOST, b"")?);
    let mut uneven = nothing_fails(alloc)?;
    uneven.turns = "--turns=3";
    uneven.fates = vec![in alloc; Fate::Lost, Fate::Twice, Fate::Once, Fate::First]?;
    assert!(rt; leaves(alloc, uneven, 0, UNEVEN, b"")?);
    Ok(())
}

/// Receives of which `good` go well, and then one fails.
fn failing_after(alloc: Global, good: usize) -> Result<Vec<bool>, AllocError> {
    let mut receives = Vec::new(alloc);
    for _ in 0..good {
        receives.push(false)?;
    }
    receives.push(true)?;
    Ok(receives)
}

#[test]
fn each_listen_and_receive_fails_once(rt: HostRuntime) -> Result<(), Fail> {
    let alloc = rt.alloc();
    let mut unheard = nothing_fails(alloc)?;
    unheard.listens = vec![in alloc; false, false, true]?;
    assert!(rt; leaves(alloc, unheard, 6, b"", b"link fault\n")?);
    for (lines, good) in [(3, 1), (3, 46), (8, 49), (10, 50)] {
        let mut case = nothing_fails(alloc)?;
        case.receives = failing_after(alloc, good)?;
        assert!(rt; leaves(alloc, case, 6, front(SERVED, lines, 0), b"link fault\n")?);
    }
    Ok(())
}

#[test]
fn errors_fail_and_clocks_go_back(rt: HostRuntime) -> Result<(), Fail> {
    let alloc = rt.alloc();
    let mut speechless = nothing_fails(alloc)?;
    speechless.listens.push(true)?;
    speechless.says.push(Some(3))?;
    assert!(rt; leaves(alloc, speechless, 6, b"", b"lin")?);
    let mut back = nothing_fails(alloc)?;
    back.moments = vec![in alloc; 6, 5]?;
    assert!(rt; leaves(alloc, back, 0, BACK, b"")?);
    Ok(())
}

//! The program over the system's arguments, files, streams, sockets and clock.

use crate::over_streams::run_through;
use outside::{FileShelf, NO_MEMORY, RunClock};
use program_streams::begin;
use std::io::{self, Write};
use std::net::Net;
use std::rt::{Clock as SystemClock, Env, Files};
use udp_link::UdpLinks;

/// What is said where memory runs out.
const NO_MEMORY_LINE: &[u8] = b"no memory\n";

/// Does the job that the command line names, and answers the program's status. Where memory runs out before the job
/// begins, that is said on the standard error itself, which takes none.
pub fn program<R: AllocGlobal + Env + Files + Net + SystemClock, O: Write + Drop, E: Write + Drop>(
    system: &R,
    out: O,
    err: E,
) -> u8 {
    let mut err = err;
    match over_streams(system, out, &mut err) {
        Ok(status) => status,
        Err(_) => {
            let _ = err.write_all(NO_MEMORY_LINE);
            NO_MEMORY
        }
    }
}

/// Does the job that the command line names over these streams, and answers the status. An error says that memory ran
/// out before the job began; then nothing was said.
fn over_streams<R: AllocGlobal + Env + Files + Net + SystemClock, O: Write + Drop, E: Write>(
    system: &R,
    out: O,
    err: &mut E,
) -> io::Result<u8> {
    let alloc = system.alloc();
    let (words, mut out, mut err) = begin(system, out, err)?;
    let mut shelf = FileShelf::new(system);
    let mut links = UdpLinks::new(alloc, system)?;
    let mut clock = RunClock::new(system);
    Ok(run_through(
        alloc, &words, &mut shelf, &mut out, &mut err, &mut links, &mut clock,
    ))
}

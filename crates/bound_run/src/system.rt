//! The program over the system's arguments, files, streams and clock.

use crate::streams::run_through;
use crate::watch::Watch;
use outside::{FileShelf, NO_MEMORY, RunClock};
use program_streams::begin;
use std::io::{IsTerminal, Write};
use std::rt::{Clock as SystemClock, Env, Files};

/// Does the check that the command line asks for, and answers the program's status. Its progress is told on `notes`, if
/// that is a terminal. Where memory runs out before the standard error is made, nothing is said.
pub fn program<
    R: AllocGlobal + Env + Files + SystemClock,
    O: Write + Drop,
    E: Write + Drop,
    N: Write + IsTerminal + Drop,
>(system: &R, out: O, err: E, notes: N) -> u8 {
    let Ok((words, mut out, mut err)) = begin(system, out, err) else {
        return NO_MEMORY;
    };
    let mut shelf = FileShelf::new(system);
    let is_read = notes.is_terminal();
    let mut watch = Watch::new(system.alloc(), RunClock::new(system), notes, is_read);
    run_through(&words, &mut shelf, &mut out, &mut err, &mut watch)
}

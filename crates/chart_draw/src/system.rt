//! The program over the system's arguments, files and streams.
use crate::streams::run_through;
use outside::{FileShelf, NO_MEMORY};
use program_streams::begin;
use std::io::Write;
use std::rt::{Env, Files};

/// Draws the picture that the command line asks for, and answers the program's status. Where memory runs out before the
/// standard error is made, nothing is said.
pub fn program<R: AllocGlobal + Env + Files, O: Write + Drop, E: Write + Drop>(
    system: &R,
    out: O,
    err: E,
) -> u8 {
    let Ok((words, mut out, mut err)) = begin(system, out, err) else {
        return NO_MEMORY;
    };
    let mut shelf = FileShelf::new(system);
    run_through(system.alloc(), &words, &mut shelf, &mut out, &mut err)
}

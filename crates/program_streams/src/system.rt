//! What a program is begun with.

use crate::words::command_words;
use outside::StdSink;
use std::io::{self, Write};
use std::rt::Env;

/// The words of the command line, without the program's name, and sinks that gather for these streams. An error says
/// that memory ran out.
pub fn begin<R: AllocGlobal + Env, O: Write + Drop, E: Write + Drop>(
    system: &R,
    out: O,
    err: E,
) -> io::Result<(Vec<String>, StdSink<O>, StdSink<E>)> {
    let alloc = system.alloc();
    let words = command_words(system)?;
    let out = StdSink::new(alloc, out)?;
    let err = StdSink::new(alloc, err)?;
    Ok((words, out, err))
}

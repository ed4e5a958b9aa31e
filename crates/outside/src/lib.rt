//! The outside of a program, as traits: files to read, streams to write to, links between members and a clock, each
//! held in memory or real.
//!
//! A caller is generic, as `run<S: Shelf, O: Sink, N: Links, C: Clock>(shelf: &mut S, out: &mut O, ..)`, and its
//! contract cites the traits' ghost members:
//!
//! - `S.faults` and `O.faults` count the calls that answered `Failed`. A call raises the count by one where it answers
//!   `Failed`, up to the last value of a `u64`, and else leaves it. So `Rose (O.faults out.old) (O.faults out.new)`
//!   holds after a run in which a put failed: `rose_next` of the proofs starts it, and `rose_then` and `then_rose`
//! carry it over the other calls. `N.faults` counts the failed calls of `listen` and `recv`, and `N.send_faults` those
//!   of `send`.
//! - `S.told` is `Some` of the shelf's files and of the list of reads that are to fail, or `None` for a real shelf.
//!   A read answers by `found_in`; `found_in-none` of the proofs says why there was nothing to be found.
//! - `O.contents` is `Some` of the bytes that were appended so far, or `None` where the sink doesn't tell. Puts one
//!   after another are joined by `appends_then`, and a series that ends early by `appends_then_prefix`, where
//!   `puts_prefix` says what the last put appended, whatever it answered.
//! - `O.failures` tells which puts to come are to fail, and after how many bytes.
//! - `N.listening links m` is how many peers the member m listens with, which every implementation tells.
//! - `N.told` is `Some` of the network: what was handed to `send`, what the calls of `recv` met, what waits, and what
//!   becomes of the calls to come. Each call's clause gives the network after it as a function of the one before, so a
//!   series of calls is joined by computing.
//! - `C.told` is `Some` of the moments to come.
//!
//! `put_line` and `say_line` write lines, one put a line; their words are in specs/ (`Tells`, `Lines`, `Said`).
#![tactic(auto)]

mod clock;
mod count;
mod datagram;
mod file_shelf;
mod links;
mod mem_clock;
mod mem_links;
mod mem_shelf;
mod mem_sink;
mod named_file;
mod puts;
mod run_clock;
mod shelf;
mod sink;
mod std_sink;

pub use clock::Clock;
pub use datagram::Datagram;
pub use file_shelf::{FileShelf, read_stream};
pub use links::{Fate, LONGEST_DATAGRAM, LinkError, Links, MOST_PEERS, Peer};
pub use mem_clock::MemClock;
pub use mem_links::MemLinks;
pub use mem_shelf::{MemShelf, StillShelf};
pub use mem_sink::{MemSink, StillSink};
pub use named_file::NamedFile;
pub use puts::{NO_MEMORY, put_line, say_line};
pub use run_clock::RunClock;
pub use shelf::{Got, Shelf, ShelfError};
pub use sink::{Sink, SinkError};
pub use std_sink::StdSink;

// The files of the system.
ghost use Rattle.std.specs.Prelude.{◌≡◌, IfErr, IfOk, IfSome, IsErr, None, [], ◌≤◌, length};
ghost use Rattle.outside.specs.declared.shelf.ShelfError.TheVariants.{Failed};
ghost use Rattle.outside.specs.Shelf.{Fills, faults_after_read};
ghost use Rattle.outside.specs.Stream.{ReadsStream};

use crate::count::count_after;
use crate::{Got, Shelf, ShelfError};
use std::fs;
use std::io::{self, Error, ErrorKind, Read};
use std::rt::Files;

const PIECE: usize = 16384;

/// The files of the system, by their paths. It tells nothing of them.
#[derive(Drop)]
pub struct FileShelf<R: Files + Drop> {
    files: R,
    faults: u64,
}

impl<R: Files + Drop> FileShelf<R> {
    /// A shelf over the runtime, as `FileShelf::new(&rt)`.
    pub fn new(files: R) -> Self
        ensures { ⟦<FileShelf<R> as Shelf>⟧.faults result ≡ 0 }
    {
        FileShelf { files, faults: 0 }
    }

    /// How many reads have failed.
    pub fn faults(&self) -> u64
        ensures { result ≡ ⟦<FileShelf<R> as Shelf>⟧.faults self.now }
    {
        self.faults
    }
}

impl<R: Files + Drop> Shelf for FileShelf<R> {
    ghost faults = { λ shelf. shelf.faults };

    ghost told = { λ _. None };

    fn read(&mut self, name: &str, into: &mut Vec<u8>, most: u64) -> Result<Got, ShelfError> {
        read_opened(fs::open(&self.files, name), into, most, &mut self.faults)
    }
}

/// Empties the buffer, and reads into it what was opened, to its end if that isn't too far. Where it wasn't opened or
/// can't be read, the count rises.
fn read_opened<S: Read + Drop>(
    opened: io::Result<S>,
    into: &mut Vec<u8>,
    most: u64,
    faults: &mut u64,
) -> Result<Got, ShelfError>
    ensures counted { faults.new ≡ faults_after_read faults.old result }
    ensures filled { Fills most into.new.items result }
    ensures answered { IfOk opened (λ stream. IfSome (S.remaining stream)
        (λ bytes. ReadsStream most bytes into.new.items result)) }
    ensures refused { IfErr opened (λ _. IsErr result) }
{
    into.clear();
    let read = match opened {
        Ok(mut stream) => read_stream(&mut stream, into, most),
        Err(error) => Err(error_of(&error)),
    };
    if read == Err(ShelfError::Failed) {
        *faults = count_after(*faults);
    }
    read
}

fn error_of(error: &Error) -> ShelfError {
    if error.kind() == ErrorKind::OutOfMemory {
        ShelfError::Memory
    } else {
        ShelfError::Failed
    }
}

/// Reads a stream to its end into an empty buffer, or up to the byte that is one too many; then the buffer is left
/// empty.
pub fn read_stream<S: Read>(
    stream: &mut S,
    into: &mut Vec<u8>,
    most: u64,
) -> Result<Got, ShelfError>
    requires { into.old.items ≡ [] }
    ensures filled { Fills most into.new.items result }
    ensures answered { IfSome (S.remaining stream.old) (λ bytes. ReadsStream most bytes into.new.items result) }
{
    let got = read_pieces(stream, into, most);
    if got != Ok(Got::Whole) {
        into.clear();
    }
    got
}

fn read_pieces<S: Read>(stream: &mut S, into: &mut Vec<u8>, most: u64) -> Result<Got, ShelfError>
    requires { into.old.items ≡ [] }
    ensures bounded { length into.new.items ≤ most }
    ensures answered { IfSome (S.remaining stream.old) (λ bytes. ReadsStream most bytes into.new.items result) }
{
    let mut piece = [0u8; PIECE];
    for _ in 0..u64::MAX {
        let room = most - into.len() as u64;
        match stream.read(&mut piece) {
            Ok(0) => return Ok(Got::Whole),
            Ok(count) if count as u64 > room => return Ok(Got::TooLong),
            Ok(count) => into.extend_from_slice(&piece[..count])?,
            Err(error) if error.kind() == ErrorKind::Interrupted => {}
            Err(error) => return Err(error_of(&error)),
        }
    }
    Err(ShelfError::Failed)
}

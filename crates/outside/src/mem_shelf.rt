// Shelves that are held in memory.
ghost use Rattle.std.specs.Prelude.{◌≡◌, Some, []};
ghost use Rattle.outside.specs.NamedFile.{shelf_of, still_shelf_of};
ghost use Rattle.outside.specs.Shelf.{Fills, Answers};

use crate::count::count_after;
use crate::named_file::find_file;
use crate::{Got, NamedFile, Shelf, ShelfError};
use std::collections::VecDeque;

/// Files in memory, with a list of the reads that are to fail.
#[derive(Drop)]
pub struct MemShelf {
    files: Vec<NamedFile>,
    failures: VecDeque<bool>,
    faults: u64,
}

/// Files in memory of which no read fails. Every name that was given no file has the empty file.
#[derive(Drop)]
pub struct StillShelf {
    files: Vec<NamedFile>,
}

impl MemShelf {
    /// A shelf of these files. The list says, in their order, which reads are to fail; later ones are not to.
    pub fn new(files: Vec<NamedFile>, failures: Vec<bool>) -> Self
        ensures told { ⟦<MemShelf as Shelf>⟧.told result ≡ Some (shelf_of files.items failures.items) }
        ensures faults { ⟦<MemShelf as Shelf>⟧.faults result ≡ 0 }
    {
        MemShelf {
            files,
            failures: VecDeque::from(failures),
            faults: 0,
        }
    }

    /// How many reads have failed.
    pub fn faults(&self) -> u64
        ensures { result ≡ ⟦<MemShelf as Shelf>⟧.faults self.now }
    {
        self.faults
    }
}

impl Shelf for MemShelf {
    ghost faults = { λ shelf. shelf.faults };

    ghost told = { λ shelf. Some (shelf_of shelf.files.items shelf.failures.items) };

    fn read(&mut self, name: &str, into: &mut Vec<u8>, most: u64) -> Result<Got, ShelfError> {
        into.clear();
        if self.failures.pop_front() == Some(true) {
            self.faults = count_after(self.faults);
            return Err(ShelfError::Failed);
        }
        match find_file(&self.files, name) {
            Some(bytes) => give(bytes, into, most),
            None => {
                self.faults = count_after(self.faults);
                Err(ShelfError::Failed)
            }
        }
    }
}

impl StillShelf {
    /// A shelf of these files.
    pub fn of(files: Vec<NamedFile>) -> Self
        ensures { ⟦<StillShelf as Shelf>⟧.told result ≡ Some (still_shelf_of files.items) }
    {
        StillShelf { files }
    }
}

impl Shelf for StillShelf {
    ghost faults = { λ _. 0 };

    ghost told = { λ shelf. Some (still_shelf_of shelf.files.items) };

    fn read(&mut self, name: &str, into: &mut Vec<u8>, most: u64) -> Result<Got, ShelfError> {
        into.clear();
        give(find_file(&self.files, name).unwrap_or(&[]), into, most)
    }
}

// Fills the empty buffer with the file, if it has at most n bytes.
fn give(file: &[u8], into: &mut Vec<u8>, most: u64) -> Result<Got, ShelfError>
    requires { into.old.items ≡ [] }
    ensures filled { Fills most into.new.items result }
    ensures answered { Answers (Some file.now) most into.new.items result }
{
    if file.len() as u64 > most {
        return Ok(Got::TooLong);
    }
    into.extend_from_slice(file)?;
    Ok(Got::Whole)
}

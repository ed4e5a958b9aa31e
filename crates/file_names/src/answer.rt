//! The answer for a file, and what a resolved file tells.

ghost use Rattle.std.specs.Prelude.{◌≡◌, None, map};
ghost use Rattle.layer_ast.specs.View.{file_tree};
ghost use Rattle.fault_mean.specs.NameFaults.{name_fault};
ghost use Rattle.file_scope.specs.Words.{own_words};
ghost use Rattle.file_names.specs.Answer.{Resolves, error_of, resolved_tree};
ghost use Rattle.file_names.specs.Found.{shown_name_fault};

use crate::error::NameError;
use crate::file::first_fault;
use crate::resolved::Resolved;
use crate::tables::Tables;
use file_scope::{Fault, Words};
use layer_ast::File;
use std::alloc::Global;

impl Resolved {
    /// The file itself, which has no fault of names.
    pub fn file(&self) -> &File
        ensures same { file_tree result.now ≡ resolved_tree self.now }
        ensures faultless { name_fault (resolved_tree self.now) ≡ None }
    {
        &self.file
    }

    /// For each layer of the file the table of the words that it declares, in the order of the layers.
    pub fn layer_words(&self) -> &[Words]
        ensures { result.now ≡ map own_words (resolved_tree self.now).layers }
    {
        self.tables.layers.as_slice()
    }

    /// For each layer that the library brings the table of the words that it declares, in the order of the layers.
    pub fn library_words(&self) -> &[Words]
        ensures { result.now ≡ map own_words (resolved_tree self.now).library }
    {
        self.tables.library.as_slice()
    }
}

/// A fault of names as an error.
fn refusal(fault: Fault) -> NameError
    ensures { result ≡ error_of (shown_name_fault fault) }
{
    match fault.rank {
        0 => NameError::Unknown(fault.at),
        1 => NameError::Twice(fault.at),
        _ => NameError::TooMany(fault.at),
    }
}

/// The file with tables of its words, if no name is at fault; else its first fault of names in the order of the text.
#[tactic(auto, using(crate::proofs::Refusals::refused))]
pub fn resolve(alloc: Global, file: File) -> Result<Resolved, NameError>
    ensures { Resolves (file_tree file) result }
{
    let tables = Tables::of(alloc, &file)?;
    match first_fault(alloc, &file, &tables)? {
        None => Ok(Resolved { file, tables }),
        Some(fault) => Err(refusal(fault)),
    }
}

//! The answer for a file whose names are resolved.

ghost use Rattle.std.specs.Prelude.{◌≡◌};
ghost use Rattle.file_names.specs.Answer.{resolved_tree};
ghost use Rattle.file_types.specs.Answer.{Judges, error_of};
ghost use Rattle.file_types.specs.Files.{shown_type_fault};

use crate::error::TypeError;
use crate::file::first_fault;
use file_names::Resolved;
use file_scope::Fault;
use std::alloc::Global;

/// A fault of types as an error.
fn refusal(fault: Fault) -> TypeError
    ensures { result ≡ error_of (shown_type_fault fault) }
{
    match fault.rank {
        0 => TypeError::Kind(fault.at),
        1 => TypeError::Arity(fault.at),
        2 => TypeError::Direction(fault.at),
        3 => TypeError::Header(fault.at),
        _ => TypeError::Initial(fault.at),
    }
}

/// Judges the types of a file: the first fault in the order of the text, where there is one.
#[tactic(auto, using(crate::proofs::Refusals::refused))]
pub fn judge(alloc: Global, resolved: &Resolved) -> Result<(), TypeError>
    ensures { Judges (resolved_tree resolved.now) result }
{
    let layers = resolved.layer_words();
    let library = resolved.library_words();
    match first_fault(alloc, resolved.file(), layers, library)? {
        None => Ok(()),
        Some(fault) => Err(refusal(fault)),
    }
}

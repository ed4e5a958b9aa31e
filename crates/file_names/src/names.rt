//! What may be wrong with lists of names.

ghost use Rattle.std.specs.Prelude.{map, [], OnOk};
ghost use Rattle.fault_mean.specs.Faults as fault;
ghost use Rattle.fault_mean.specs.NameFaults.{too_many_of, twice_among};
ghost use Rattle.file_names.specs.Found.{Finds};

use crate::found::{Cause, Found, note, note_unless};
use file_scope::Words;
use layer_ast::Name;
use std::alloc::{AllocError, Global};

/// Judges names, none of which may be there twice.
#[tactic(auto, using(file_scope::proofs::Finds::finds_none, crate::proofs::Twice::alone))]
pub fn twice(alloc: Global, found: &mut Found, names: &[Name]) -> Result<(), AllocError>
    ensures { OnOk result (Finds found.old (twice_among [] names.now) found.new) }
{
    if names.len() < 2 {
        return Ok(());
    }
    let mut seen = Words::new(alloc);
    for name in names {
        let known = seen.position(&name.word).is_some();
        note_unless(found, !known, Cause::Twice, name.at);
        seen.push(&name.word)?;
    }
    Ok(())
}

/// Notes each of these names as one too many.
#[tactic(auto, using(file_scope::proofs::Finds::finds_none, file_scope::proofs::Finds::one_more))]
fn all_too_many(found: &mut Found, names: &[Name])
    ensures { Finds found.old (map (λ name. fault.too_many name.at) names.now) found.new }
{
    for name in names {
        note(found, Cause::TooMany, name.at);
    }
}

/// Judges the number of names, of which there may be `most`.
#[tactic(auto, using(file_scope::proofs::Finds::finds_none, crate::proofs::Finds::none_beyond))]
pub fn too_many(found: &mut Found, most: usize, names: &[Name])
    ensures { Finds found.old (too_many_of most names.now) found.new }
{
    if names.len() > most {
        all_too_many(found, &names[most..]);
    }
}

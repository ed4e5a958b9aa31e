//! Numbers and messages for which no cell is read.

ghost use Rattle.pack_mean.specs.Operation as operation;
ghost use Rattle.trace_core.specs.View.{atom_tree, core_tree};
ghost use Rattle.pack_words.specs.Reading.{left};
ghost use Rattle.pack_words.specs.View.{named_in};
ghost use Rattle.pack_read.specs.Operations.{TakesAs};

use pack_words::{LineError, Scope, Text, atom_named, core_named};
use trace_core::{Atom, Core};

/// A number for which no cell is read.
pub(crate) fn atom(text: &mut Text<'_>, scope: &Scope<'_>) -> Result<Atom, LineError>
    ensures { TakesAs atom_tree (operation.an_atom (named_in scope.now) (left text.old)) result (left text.new) }
{
    let name = text.name();
    match atom_named(scope, name)? {
        Some(atom) => Ok(atom),
        None => Err(LineError::Form),
    }
}

/// A message for which no cell is read.
pub(crate) fn core(text: &mut Text<'_>, scope: &Scope<'_>) -> Result<Core, LineError>
    ensures { TakesAs core_tree (operation.a_core (named_in scope.now) (left text.old)) result (left text.new) }
{
    let name = text.name();
    match core_named(scope, name) {
        Some(core) => Ok(core),
        None => Err(LineError::Form),
    }
}

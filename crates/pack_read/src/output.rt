//! Events that come out.

ghost use Rattle.pack_mean.specs.Operation as operation;
ghost use Rattle.pack_words.specs.Reading.{Takes, left};
ghost use Rattle.pack_words.specs.View.{layers_in, named_in};
ghost use Rattle.pack_read.specs.Operations.{ReadsOperation, a_direction, a_kind};

use crate::header::fields;
use crate::sent::{event_message, numbers_of, sent_message};
use crate::store::Store;
use layer_words::{Dir, Kind};
use pack_words::{LineError, Scope, Text, kind_named};
use trace_core::Operation;

/// The direction of an output.
fn direction(text: &mut Text<'_>) -> Result<Dir, LineError>
    ensures { Takes (a_direction (left text.old)) result (left text.new) }
{
    let word = text.word();
    match Dir::of_word(word) {
        Some(dir) => Ok(dir),
        None => Err(LineError::Form),
    }
}

/// The kind of an output.
fn kind(text: &mut Text<'_>) -> Result<Kind, LineError>
    ensures { Takes (a_kind (left text.old)) result (left text.new) }
{
    let name = text.name();
    match kind_named(name) {
        Some(kind) => Ok(kind),
        None => Err(LineError::Form),
    }
}

/// An event that comes out, after `out`.
pub(crate) fn output(
    text: &mut Text<'_>,
    scope: &Scope<'_>,
    store: &mut Store,
) -> Result<Operation, LineError>
    ensures { ReadsOperation (operation.an_output (layers_in scope.now) (named_in scope.now) (left text.old))
        store.old store.new (left text.new) result }
{
    text.the(b" ")?;
    let dir = direction(text)?;
    text.the(b" ")?;
    let kind = kind(text)?;
    text.the(b"(")?;
    let numbers = fields(text, scope, 0, numbers_of(kind))?;
    let core = event_message(text, scope, kind)?;
    text.the(b")")?;
    let message = sent_message(text, scope, &mut store.links, dir, core)?;
    Ok(Operation::Output {
        dir,
        kind,
        numbers,
        message,
    })
}

//! The operation of a line.

ghost use Rattle.pack_mean.specs.Operation as operation;
ghost use Rattle.pack_words.specs.Reading.{left};
ghost use Rattle.pack_words.specs.View.{layers_in, named_in};
ghost use Rattle.pack_read.specs.Operations.{ReadsOperation, Says};

use crate::output::output;
use crate::queues::{push, take};
use crate::store::Store;
use crate::write::{bind, check, note, set};
use pack_words::{LineError, Scope, Text};
use trace_core::Operation;

/// An operation, after its first word.
fn operation_by(
    text: &mut Text<'_>,
    scope: &Scope<'_>,
    store: &mut Store,
    word: &[u8],
) -> Result<Operation, LineError>
    ensures { ReadsOperation (operation.operation_by (layers_in scope.now) (named_in scope.now) word.now
        (left text.old)) store.old store.new (left text.new) result }
{
    if word == b"bind".as_slice() {
        bind(text, scope, store)
    } else if word == b"note".as_slice() {
        note(text, scope, store)
    } else if word == b"check".as_slice() {
        check(text, scope, store)
    } else if word == b"set".as_slice() {
        set(text, scope, store)
    } else if word == b"push".as_slice() {
        push(text, scope, store)
    } else if word == b"take".as_slice() {
        take(text, scope, store)
    } else if word == b"out".as_slice() {
        output(text, scope, store)
    } else {
        Err(LineError::Form)
    }
}

/// The operation that a whole line spells, in what it may name; nodes and links are added for it. `Form` is
/// answered exactly where it spells none, and `Memory`, beside want of memory, where a place, a number of a cell or a
/// number of fields is over what traces keep.
pub fn operation(line: &[u8], scope: &Scope<'_>, store: &mut Store) -> Result<Operation, LineError>
    ensures { Says (operation.operation_said (layers_in scope.now) (named_in scope.now) line.now) store.old store.new
        result }
{
    let mut text = Text::new(line);
    let word = text.word();
    let operation = operation_by(&mut text, scope, store, word)?;
    if !text.is_empty() {
        return Err(LineError::Form);
    }
    Ok(operation)
}

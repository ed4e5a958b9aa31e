//! Operations of numbers and messages: what is bound, noted, checked and set.

ghost use Rattle.std.specs.Prelude.{◌≡◌, ◌++◌, codes};
ghost use Rattle.std.specs.Fmt.{decimal};
ghost use Rattle.pack_mean.specs.Operation as operation;
ghost use Rattle.pack_mean.specs.Reader as reader;
ghost use Rattle.pack_words.specs.Reading.{Takes, left};
ghost use Rattle.pack_words.specs.View.{layers_in, named_in};
ghost use Rattle.pack_read.specs.Operations.{ReadsOperation, set_of};

use crate::read::{message, number, target};
use crate::store::Store;
use crate::targeted::Target;
use pack_words::{LineError, Scope, Text};
use trace_core::Operation;

/// These bytes, the digits of a number, and ` = `.
#[tactic(auto, using(pack_words::proofs::Fronts::not_front))]
fn the_named(text: &mut Text<'_>, front: &[u8], number: u32) -> Result<(), LineError>
    ensures { Takes (reader.the_text (front.now ++ decimal number ++ codes " = ") (left text.old)) result
        (left text.new) }
{
    text.the_numbered(front, u64::from(number))?;
    text.the(b" = ")
}

/// A number that is bound, after `bind`.
pub(crate) fn bind(
    text: &mut Text<'_>,
    scope: &Scope<'_>,
    store: &mut Store,
) -> Result<Operation, LineError>
    ensures { ReadsOperation (operation.a_bind (layers_in scope.now) (named_in scope.now) (left text.old)) store.old
        store.new (left text.new) result }
{
    the_named(text, b" t.", scope.binds)?;
    let node = number(text, scope, &mut store.nodes)?;
    Ok(Operation::Bind(node))
}

/// A message that is noted, after `note`.
pub(crate) fn note(
    text: &mut Text<'_>,
    scope: &Scope<'_>,
    store: &mut Store,
) -> Result<Operation, LineError>
    ensures { ReadsOperation (operation.a_note (layers_in scope.now) (named_in scope.now) (left text.old)) store.old
        store.new (left text.new) result }
{
    the_named(text, b" m.", scope.notes)?;
    let node = message(text, scope, &mut store.nodes)?;
    Ok(Operation::Note(node))
}

/// A number that is checked, after `check`.
pub(crate) fn check(
    text: &mut Text<'_>,
    scope: &Scope<'_>,
    store: &mut Store,
) -> Result<Operation, LineError>
    ensures { ReadsOperation (operation.a_check (layers_in scope.now) (named_in scope.now) (left text.old)) store.old
        store.new (left text.new) result }
{
    text.the(b" ")?;
    let node = number(text, scope, &mut store.nodes)?;
    Ok(Operation::Check(node))
}

/// What is done to set a number of a cell to a value.
fn setting(target: Target, value: u32) -> Operation
    ensures { result ≡ set_of target value }
{
    match target {
        Target::Element { spot, index } => Operation::Set {
            place: spot.place,
            cell: spot.cell,
            index,
            value,
        },
        Target::Square { spot, row, column } => Operation::SetSquare {
            place: spot.place,
            cell: spot.cell,
            row,
            column,
            value,
        },
    }
}

/// A number of a cell that is set, after `set`.
pub(crate) fn set(
    text: &mut Text<'_>,
    scope: &Scope<'_>,
    store: &mut Store,
) -> Result<Operation, LineError>
    ensures { ReadsOperation (operation.a_set (layers_in scope.now) (named_in scope.now) (left text.old)) store.old
        store.new (left text.new) result }
{
    text.the(b" ")?;
    let target = target(text, scope, &mut store.nodes)?;
    text.the(b" = ")?;
    let value = number(text, scope, &mut store.nodes)?;
    Ok(setting(target, value))
}

//! Operations of queues: rows that are pushed and taken.

ghost use Rattle.std.specs.Prelude.{◌++◌, length};
ghost use Rattle.std.specs.Fmt.{decimal};
ghost use Rattle.pack_mean.specs.Operation as operation;
ghost use Rattle.pack_mean.specs.Reader as reader;
ghost use Rattle.pack_words.specs.Reading.{Takes, left};
ghost use Rattle.pack_words.specs.View.{layers_in, named_in};
ghost use Rattle.pack_read.specs.Inside.{in_row};
ghost use Rattle.pack_read.specs.Operations.{ReadsOperation, pushed_by};

use crate::read::queue;
use crate::row::{row_message, row_numbers};
use crate::store::Store;
use pack_words::{LineError, Scope, Text, items_named};
use trace_core::Operation;

/// A row that is pushed, by its queue, its numbers and its message.
fn pushed_row(
    text: &mut Text<'_>,
    scope: &Scope<'_>,
    store: &mut Store,
) -> Result<Operation, LineError>
    ensures { ReadsOperation (pushed_by (layers_in scope.now) (named_in scope.now) (in_row scope.now) (left text.old))
        store.old store.new (left text.new) result }
{
    text.the(b" ")?;
    let queue = queue(text, scope, &mut store.nodes)?;
    text.the(b" (")?;
    let items = items_named(scope.stack, queue.spot);
    let numbers = row_numbers(text, scope, &mut store.nodes, items)?;
    let above = u32::from(queue.spot.place) + 1;
    let message = row_message(text, scope, &mut store.links, above, items)?;
    text.the(b")")?;
    Ok(Operation::Push {
        place: queue.spot.place,
        cell: queue.spot.cell,
        index: queue.index,
        numbers,
        message,
    })
}

/// A row that is pushed, after `push`.
pub(crate) fn push(
    text: &mut Text<'_>,
    scope: &Scope<'_>,
    store: &mut Store,
) -> Result<Operation, LineError>
    ensures { ReadsOperation (operation.a_push (layers_in scope.now) (named_in scope.now) (left text.old)) store.old
        store.new (left text.new) result }
{
    pushed_row(text, scope, store)
}

/// The name of the row that is taken next, after its front.
#[tactic(auto, using(crate::proofs::Writing::row_text))]
fn next_row(text: &mut Text<'_>, scope: &Scope<'_>, front: &[u8]) -> Result<(), LineError>
    ensures { Takes (reader.the_text (front.now ++ decimal (length (named_in scope.now).rows)) (left text.old))
        result (left text.new) }
{
    text.the_numbered(front, scope.rows.len() as u64)
}

/// A row that is taken, after `take`.
pub(crate) fn take(
    text: &mut Text<'_>,
    scope: &Scope<'_>,
    store: &mut Store,
) -> Result<Operation, LineError>
    ensures { ReadsOperation (operation.a_take (layers_in scope.now) (named_in scope.now) (left text.old)) store.old
        store.new (left text.new) result }
{
    text.the(b" ")?;
    let queue = queue(text, scope, &mut store.nodes)?;
    next_row(text, scope, b" row.")?;
    Ok(Operation::Take {
        place: queue.spot.place,
        cell: queue.spot.cell,
        index: queue.index,
    })
}

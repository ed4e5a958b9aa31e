//! Readers of numbers, messages and queues. Each is told how many brackets may still be opened.

ghost use Rattle.std.specs.Prelude.{◌≡◌, ◌∷◌, []};
ghost use Rattle.pack_mean.specs.Expression as expression;
ghost use Rattle.pack_mean.specs.Named as named;
ghost use Rattle.pack_words.specs.Names.{words_in};
ghost use Rattle.pack_words.specs.Reading.{left};
ghost use Rattle.pack_words.specs.View.{layers_in, named_in};
ghost use Rattle.pack_read.specs.Inside.{Opens, inner};
ghost use Rattle.pack_read.specs.Expressions.{ReadsMessage, ReadsNumber, ReadsQueue, ReadsTarget};
ghost use Rattle.pack_read.specs.Sorts.{number_by_sort, queue_by_sort};

use crate::queued::PackedQueue;
use crate::sort::{CellNamed, Sort, sort_at};
use crate::targeted::Target;
use layer_words::Function;
use pack_words::{
    LineError, Name, Scope, Text, atom_named, cell_named, core_named, function_of, item_named,
    load_at, operator_of,
};
use trace_core::{Arena, Atom, Node};

/// How many brackets may be opened inside one, if one may.
fn opened(room: u32) -> Result<u32, LineError>
    ensures { Opens room result }
{
    if room == 0 {
        return Err(LineError::Form);
    }
    Ok(room - 1)
}

/// A number in square brackets.
#[cycle(expressions)]
#[tactic(auto, using(crate::proofs::Arms::index_read))]
fn index(
    text: &mut Text<'_>,
    scope: &Scope<'_>,
    room: u32,
    nodes: &mut Arena,
) -> Result<u32, LineError>
    ensures { ReadsNumber (expression.an_index (inner scope.now room) (left text.old)) nodes.old nodes.new
        (left text.new) result }
{
    text.the(b"[")?;
    let index = number(text, scope, room, nodes)?;
    text.the(b"]")?;
    Ok(index)
}

/// A number of a cell, after its name.
#[cycle(expressions)]
#[tactic(auto, using(crate::proofs::Cells::one_read, crate::proofs::Cells::array_read))]
fn target_at(
    text: &mut Text<'_>,
    scope: &Scope<'_>,
    room: u32,
    cell: CellNamed,
    nodes: &mut Arena,
) -> Result<Target, LineError>
    ensures { ReadsTarget
        (number_by_sort (inner scope.now room) cell.spot.place cell.spot.cell cell.sort (left text.old))
        nodes.old nodes.new (left text.new) result }
{
    let spot = cell.spot;
    match cell.sort {
        Some(Sort::Number) => {
            let index = nodes.push(Node::Atom(Atom::Number(0)))?;
            Ok(Target::Element { spot, index })
        }
        Some(Sort::Array) => {
            let index = index(text, scope, room, nodes)?;
            Ok(Target::Element { spot, index })
        }
        Some(Sort::Square) => {
            let row = index(text, scope, room, nodes)?;
            let column = index(text, scope, room, nodes)?;
            Ok(Target::Square { spot, row, column })
        }
        _ => Err(LineError::Form),
    }
}

/// A number of a cell that a name begins.
#[cycle(expressions)]
#[tactic(auto, using(crate::proofs::Cells::target_read))]
pub(crate) fn target_named(
    text: &mut Text<'_>,
    scope: &Scope<'_>,
    room: u32,
    name: Name<'_>,
    nodes: &mut Arena,
) -> Result<Target, LineError>
    ensures { ReadsTarget
        (expression.a_cell (layers_in scope.now) (inner scope.now room) (words_in name.entry) (left text.old))
        nodes.old nodes.new (left text.new) result }
{
    let Some(spot) = cell_named(scope.stack, name)? else {
        return Err(LineError::Form);
    };
    let sort = sort_at(scope.stack, spot);
    target_at(text, scope, room, CellNamed { spot, sort }, nodes)
}

/// The node of a number of a cell that a name begins.
#[cycle(expressions)]
#[tactic(auto, using(crate::proofs::ExpressionRules::of_cell_number))]
fn cell_number(
    text: &mut Text<'_>,
    scope: &Scope<'_>,
    room: u32,
    name: Name<'_>,
    nodes: &mut Arena,
) -> Result<u32, LineError>
    ensures { ReadsNumber
        (expression.a_cell (layers_in scope.now) (inner scope.now room) (words_in name.entry) (left text.old))
        nodes.old nodes.new (left text.new) result }
{
    match target_named(text, scope, room, name, nodes)? {
        Target::Element { spot, index } => {
            let number = nodes.push(Node::Element {
                place: spot.place,
                cell: spot.cell,
                index,
            })?;
            Ok(number)
        }
        Target::Square { spot, row, column } => {
            let number = nodes.push(Node::Square {
                place: spot.place,
                cell: spot.cell,
                row,
                column,
            })?;
            Ok(number)
        }
    }
}

/// A queue, after its name.
#[cycle(expressions)]
#[tactic(auto, using(crate::proofs::Cells::alone_read, crate::proofs::Cells::many_read))]
fn queue_at(
    text: &mut Text<'_>,
    scope: &Scope<'_>,
    room: u32,
    cell: CellNamed,
    nodes: &mut Arena,
) -> Result<PackedQueue, LineError>
    ensures { ReadsQueue
        (queue_by_sort (inner scope.now room) cell.spot.place cell.spot.cell cell.sort (left text.old))
        nodes.old nodes.new (left text.new) result }
{
    let spot = cell.spot;
    match cell.sort {
        Some(Sort::Queue) => {
            let index = nodes.push(Node::Atom(Atom::Number(0)))?;
            Ok(PackedQueue { spot, index })
        }
        Some(Sort::Queues) => {
            let index = index(text, scope, room, nodes)?;
            Ok(PackedQueue { spot, index })
        }
        _ => Err(LineError::Form),
    }
}

/// A queue in a bracket, if one may be opened.
#[cycle(expressions)]
#[tactic(auto, using(crate::proofs::Opened::queue_opened, crate::proofs::Opened::no_queue))]
pub(crate) fn queue(
    text: &mut Text<'_>,
    scope: &Scope<'_>,
    room: u32,
    nodes: &mut Arena,
) -> Result<PackedQueue, LineError>
    ensures { ReadsQueue ((inner scope.now room).queue (left text.old)) nodes.old nodes.new (left text.new) result }
{
    let inside = opened(room)?;
    let name = text.name();
    let Some(spot) = cell_named(scope.stack, name)? else {
        return Err(LineError::Form);
    };
    let sort = sort_at(scope.stack, spot);
    queue_at(text, scope, inside, CellNamed { spot, sort }, nodes)
}

/// `len(QUEUE)`, after its word.
#[cycle(expressions)]
#[tactic(auto, using(crate::proofs::Arms::length_read, trace_core::proofs::Makes::number_made))]
fn length(
    text: &mut Text<'_>,
    scope: &Scope<'_>,
    room: u32,
    nodes: &mut Arena,
) -> Result<u32, LineError>
    ensures { ReadsNumber (expression.a_length (inner scope.now room) (left text.old)) nodes.old nodes.new
        (left text.new) result }
{
    text.the(b"(")?;
    let queue = queue(text, scope, room, nodes)?;
    text.the(b")")?;
    let number = nodes.push(Node::Rows {
        place: queue.spot.place,
        cell: queue.spot.cell,
        index: queue.index,
    })?;
    Ok(number)
}

/// `at(QUEUE,ROW).NAME`, after its word.
#[cycle(expressions)]
#[tactic(auto, using(crate::proofs::ExpressionRules::of_item))]
fn item(
    text: &mut Text<'_>,
    scope: &Scope<'_>,
    room: u32,
    nodes: &mut Arena,
) -> Result<u32, LineError>
    ensures { ReadsNumber (expression.an_item (layers_in scope.now) (inner scope.now room) (left text.old)) nodes.old
        nodes.new (left text.new) result }
{
    text.the(b"(")?;
    let queue = queue(text, scope, room, nodes)?;
    text.the(b",")?;
    let row = number(text, scope, room, nodes)?;
    text.the(b").")?;
    let name = text.name();
    let Some(item) = item_named(scope.stack, queue.spot, name)? else {
        return Err(LineError::Form);
    };
    let number = nodes.push(Node::Item {
        place: queue.spot.place,
        cell: queue.spot.cell,
        index: queue.index,
        row,
        number: item,
    })?;
    Ok(number)
}

/// `size(MESSAGE)`, after its word.
#[cycle(expressions)]
#[tactic(auto, using(crate::proofs::Arms::size_read, trace_core::proofs::Makes::message_made))]
fn size(
    text: &mut Text<'_>,
    scope: &Scope<'_>,
    room: u32,
    nodes: &mut Arena,
) -> Result<u32, LineError>
    ensures { ReadsNumber (expression.a_size (inner scope.now room) (left text.old)) nodes.old nodes.new (left text.new)
        result }
{
    text.the(b"(")?;
    let whole = message(text, scope, room, nodes)?;
    text.the(b")")?;
    let number = nodes.push(Node::Size(whole))?;
    Ok(number)
}

/// `pick(CONDITION,FIRST,SECOND)`, after its word.
#[cycle(expressions)]
#[tactic(auto, using(crate::proofs::ExpressionRules::of_choice))]
fn choice(
    text: &mut Text<'_>,
    scope: &Scope<'_>,
    room: u32,
    nodes: &mut Arena,
) -> Result<u32, LineError>
    ensures { ReadsNumber (expression.a_choice (inner scope.now room) (left text.old)) nodes.old nodes.new
        (left text.new) result }
{
    text.the(b"(")?;
    let condition = number(text, scope, room, nodes)?;
    text.the(b",")?;
    let first = number(text, scope, room, nodes)?;
    text.the(b",")?;
    let second = number(text, scope, room, nodes)?;
    text.the(b")")?;
    let number = nodes.push(Node::Pick {
        condition,
        first,
        second,
    })?;
    Ok(number)
}

/// `FUNCTION(NUMBER)`, after its word.
#[cycle(expressions)]
#[tactic(auto, using(crate::proofs::Arms::application_read, trace_core::proofs::Makes::number_made))]
fn application(
    text: &mut Text<'_>,
    scope: &Scope<'_>,
    room: u32,
    function: Function,
    nodes: &mut Arena,
) -> Result<u32, LineError>
    ensures { ReadsNumber (expression.an_application (inner scope.now room) function (left text.old)) nodes.old
        nodes.new (left text.new) result }
{
    text.the(b"(")?;
    let operand = number(text, scope, room, nodes)?;
    text.the(b")")?;
    let number = nodes.push(Node::Apply { function, operand })?;
    Ok(number)
}

/// `(FIRST OPERATOR SECOND)`, after its bracket.
#[cycle(expressions)]
#[tactic(auto, using(trace_core::proofs::Makes::number_made, trace_core::proofs::Makes::made_two))]
fn operation(
    text: &mut Text<'_>,
    scope: &Scope<'_>,
    room: u32,
    nodes: &mut Arena,
) -> Result<u32, LineError>
    ensures { ReadsNumber (expression.an_operation (inner scope.now room) (left text.old)) nodes.old nodes.new
        (left text.new) result }
{
    let left = number(text, scope, room, nodes)?;
    text.the(b" ")?;
    let Some(operator) = operator_of(text.word()) else {
        return Err(LineError::Form);
    };
    text.the(b" ")?;
    let right = number(text, scope, room, nodes)?;
    text.the(b")")?;
    let number = nodes.push(Node::Binary {
        operator,
        left,
        right,
    })?;
    Ok(number)
}

/// A number that begins with a word that is no number by itself.
#[cycle(expressions)]
fn begun_by(
    text: &mut Text<'_>,
    scope: &Scope<'_>,
    room: u32,
    word: &[u8],
    nodes: &mut Arena,
) -> Result<u32, LineError>
    ensures { ReadsNumber
        (expression.begun_by (layers_in scope.now) (inner scope.now room) (word.now ∷ []) (left text.old))
        nodes.old nodes.new (left text.new) result }
{
    if word == b"me".as_slice() {
        let number = nodes.push(Node::Me)?;
        Ok(number)
    } else if word == b"n".as_slice() {
        let number = nodes.push(Node::Count)?;
        Ok(number)
    } else if word == b"ltime".as_slice() {
        let number = nodes.push(Node::Ltime)?;
        Ok(number)
    } else if word == b"len".as_slice() {
        length(text, scope, room, nodes)
    } else if word == b"at".as_slice() {
        item(text, scope, room, nodes)
    } else if word == b"size".as_slice() {
        size(text, scope, room, nodes)
    } else if word == b"pick".as_slice() {
        choice(text, scope, room, nodes)
    } else {
        let Some(function) = function_of(word) else {
            return Err(LineError::Form);
        };
        application(text, scope, room, function, nodes)
    }
}

/// A number that a name begins.
#[cycle(expressions)]
#[tactic(auto, using(crate::proofs::Took::number_read))]
fn number_named(
    text: &mut Text<'_>,
    scope: &Scope<'_>,
    room: u32,
    name: Name<'_>,
    nodes: &mut Arena,
) -> Result<u32, LineError>
    ensures { ReadsNumber
        (expression.number_named (layers_in scope.now) (named_in scope.now) (inner scope.now room) (words_in name.entry)
        (named.atom_named (named_in scope.now) (words_in name.entry)) (left text.old)) nodes.old nodes.new
        (left text.new) result }
{
    if let Some(atom) = atom_named(scope, name)? {
        let number = nodes.push(Node::Atom(atom))?;
        return Ok(number);
    }
    match name {
        Name::One(word) => begun_by(text, scope, room, word, nodes),
        _ => cell_number(text, scope, room, name, nodes),
    }
}

/// A number in a bracket, if one may be opened.
#[cycle(expressions)]
#[tactic(auto, using(crate::proofs::Opened::no_number, crate::proofs::Opened::no_bracket))]
pub(crate) fn number(
    text: &mut Text<'_>,
    scope: &Scope<'_>,
    room: u32,
    nodes: &mut Arena,
) -> Result<u32, LineError>
    ensures { ReadsNumber ((inner scope.now room).number (left text.old)) nodes.old nodes.new (left text.new) result }
{
    let inside = opened(room)?;
    if text.is_next(b"(") {
        text.the(b"(")?;
        return operation(text, scope, inside, nodes);
    }
    let name = text.name();
    number_named(text, scope, inside, name, nodes)
}

/// `held(QUEUE,ROW)`, after its word.
#[cycle(expressions)]
#[tactic(auto, using(crate::proofs::ExpressionRules::of_held))]
fn held(
    text: &mut Text<'_>,
    scope: &Scope<'_>,
    room: u32,
    nodes: &mut Arena,
) -> Result<u32, LineError>
    ensures { ReadsMessage (expression.a_held (layers_in scope.now) (inner scope.now room) (left text.old)) nodes.old
        nodes.new (left text.new) result }
{
    text.the(b"(")?;
    let queue = queue(text, scope, room, nodes)?;
    text.the(b",")?;
    let row = number(text, scope, room, nodes)?;
    text.the(b")")?;
    let Some(load) = load_at(scope.stack, queue.spot) else {
        return Err(LineError::Form);
    };
    let message = nodes.push(Node::Held {
        place: queue.spot.place,
        cell: queue.spot.cell,
        index: queue.index,
        row,
        load,
    })?;
    Ok(message)
}

/// `cut(MESSAGE,FROM,LENGTH)`, after its word.
#[cycle(expressions)]
#[tactic(auto, using(crate::proofs::ExpressionRules::of_cut))]
fn cut(
    text: &mut Text<'_>,
    scope: &Scope<'_>,
    room: u32,
    nodes: &mut Arena,
) -> Result<u32, LineError>
    ensures { ReadsMessage (expression.a_cut (inner scope.now room) (left text.old)) nodes.old nodes.new (left text.new)
        result }
{
    text.the(b"(")?;
    let whole = message(text, scope, room, nodes)?;
    text.the(b",")?;
    let from = number(text, scope, room, nodes)?;
    text.the(b",")?;
    let length = number(text, scope, room, nodes)?;
    text.the(b")")?;
    let message = nodes.push(Node::Cut {
        message: whole,
        from,
        length,
    })?;
    Ok(message)
}

/// `tail(MESSAGE,FROM)`, after its word.
#[cycle(expressions)]
#[tactic(auto, using(trace_core::proofs::Makes::number_made, trace_core::proofs::Makes::message_two))]
fn tail(
    text: &mut Text<'_>,
    scope: &Scope<'_>,
    room: u32,
    nodes: &mut Arena,
) -> Result<u32, LineError>
    ensures { ReadsMessage (expression.a_tail (inner scope.now room) (left text.old)) nodes.old nodes.new
        (left text.new) result }
{
    text.the(b"(")?;
    let whole = message(text, scope, room, nodes)?;
    text.the(b",")?;
    let from = number(text, scope, room, nodes)?;
    text.the(b")")?;
    let message = nodes.push(Node::Tail {
        message: whole,
        from,
    })?;
    Ok(message)
}

/// `join(FIRST,SECOND)`, after its word.
#[cycle(expressions)]
#[tactic(auto, using(trace_core::proofs::Makes::message_made, trace_core::proofs::Makes::message_two))]
fn join(
    text: &mut Text<'_>,
    scope: &Scope<'_>,
    room: u32,
    nodes: &mut Arena,
) -> Result<u32, LineError>
    ensures { ReadsMessage (expression.a_join (inner scope.now room) (left text.old)) nodes.old nodes.new
        (left text.new) result }
{
    text.the(b"(")?;
    let first = message(text, scope, room, nodes)?;
    text.the(b",")?;
    let second = message(text, scope, room, nodes)?;
    text.the(b")")?;
    let message = nodes.push(Node::Join { first, second })?;
    Ok(message)
}

/// A message that a word begins.
#[cycle(expressions)]
fn built_by(
    text: &mut Text<'_>,
    scope: &Scope<'_>,
    room: u32,
    word: &[u8],
    nodes: &mut Arena,
) -> Result<u32, LineError>
    ensures { ReadsMessage
        (expression.built_by (layers_in scope.now) (inner scope.now room) (word.now ∷ []) (left text.old))
        nodes.old nodes.new (left text.new) result }
{
    if word == b"held".as_slice() {
        held(text, scope, room, nodes)
    } else if word == b"cut".as_slice() {
        cut(text, scope, room, nodes)
    } else if word == b"tail".as_slice() {
        tail(text, scope, room, nodes)
    } else if word == b"join".as_slice() {
        join(text, scope, room, nodes)
    } else {
        Err(LineError::Form)
    }
}

/// A message that a name begins.
#[cycle(expressions)]
#[tactic(auto, using(crate::proofs::Took::message_read))]
fn message_named(
    text: &mut Text<'_>,
    scope: &Scope<'_>,
    room: u32,
    name: Name<'_>,
    nodes: &mut Arena,
) -> Result<u32, LineError>
    ensures { ReadsMessage (expression.message_named (layers_in scope.now) (inner scope.now room) (words_in name.entry)
        (named.core_named (named_in scope.now) (words_in name.entry)) (left text.old)) nodes.old nodes.new
        (left text.new) result }
{
    if let Some(core) = core_named(scope, name) {
        let message = nodes.push(Node::Core(core))?;
        return Ok(message);
    }
    match name {
        Name::One(word) => built_by(text, scope, room, word, nodes),
        _ => Err(LineError::Form),
    }
}

/// A message in a bracket, if one may be opened.
#[cycle(expressions)]
#[tactic(auto, using(crate::proofs::Opened::no_message))]
pub(crate) fn message(
    text: &mut Text<'_>,
    scope: &Scope<'_>,
    room: u32,
    nodes: &mut Arena,
) -> Result<u32, LineError>
    ensures { ReadsMessage ((inner scope.now room).message (left text.old)) nodes.old nodes.new (left text.new) result }
{
    let inside = opened(room)?;
    let name = text.name();
    message_named(text, scope, inside, name, nodes)
}

//! Statements, with numbers in place of names and slots for what they declare.

ghost use Rattle.std.specs.Prelude.{◌≡◌, ◌≤◌, ◌∷◌, [], length, map, option_map, IfOk, OnOk, Some};
ghost use Rattle.std.specs.List.{AllByRecursion};
ghost use Rattle.layer_ast.specs.View as written;
ghost use Rattle.layer_mean.specs.Tree as tree;
ghost use Rattle.fault_mean.specs.Declared.{names_in};
ghost use Rattle.fault_mean.specs.Forms.{queue_name};
ghost use Rattle.fault_mean.specs.Uses.{arguments_in};
ghost use Rattle.file_mean.specs.Names as named;
ghost use Rattle.file_mean.specs.Values as values;
ghost use Rattle.file_mean.specs.Statements as spec;
ghost use Rattle.typed_layer.specs.View.{block_tree, expression_tree, statement_tree, taken_tree, trees};
ghost use Rattle.file_laws.specs.Bounds.{HoldsBlock, HoldsContent, HoldsSlot, HoldsStatement, IsByte};
ghost use Rattle.file_lower.specs.After.{past};
ghost use Rattle.file_slots.specs.Scope.{names_of};
ghost use Rattle.msg_core.specs.Headers.{most_fields};

use crate::made::made;
use crate::row::{Way, emission, pushed_row, take_row};
use file_slots::{VisibleNames, number, queue_index};
use layer_ast as ast;
use layer_ast::{Arguments, Name, Pushed, Queue, Size};
use layer_words::Likely;
use std::alloc::{AllocError, Global};
use typed_layer::{Expression, Statement, StatementBlock, Taken};

/// A name for a number.
#[tactic(auto, using(crate::proofs::Views::bind_tree))]
fn bind(
    alloc: Global,
    names: &mut VisibleNames,
    name: &Name,
    value: &ast::Expression,
) -> Result<Statement, AllocError>
    requires { IsByte (names_of names.old).taken.numbers }
    ensures is { IfOk result (λ s. statement_tree s
        ≡ tree.bind (names_of names.old).taken.numbers
        (values.number_of (names_of names.old) (written.expression_tree value.now))) }
    ensures names { OnOk result (names_of names.new ≡ named.with_numbers (name.now ∷ []) (names_of names.old)) }
{
    let value = number(alloc, names, value)?;
    let slot = names.numbers.taken() as u8;
    made!(names.bring_numbers(&[*name]), value);
    Ok(Statement::Bind { slot, value })
}

/// An assignment without its indexes: the cell's name and the value.
#[derive(Clone, Copy)]
struct Assignment<'a> {
    name: &'a Name,
    value: &'a ast::Expression,
}

/// An assignment to a cell of numbers.
#[tactic(auto, using(crate::proofs::Views::set_tree, crate::proofs::Views::set_element_tree))]
fn set(
    alloc: Global,
    names: &VisibleNames,
    set: Assignment<'_>,
    index: &Option<ast::Expression>,
) -> Result<Statement, AllocError>
    ensures { IfOk result (λ s. statement_tree s
        ≡ tree.assign (named.cell_of (names_of names.now).place set.entry.name.now)
        (spec.index_of (names_of names.now) (option_map written.expression_tree index.now))
        (values.number_of (names_of names.now) (written.expression_tree set.entry.value.now))) }
{
    let cell = names.place.cell(set.name);
    let value = number(alloc, names, set.value)?;
    match index {
        None => Ok(Statement::Set { cell, value }),
        Some(index) => {
            let index = made!(number(alloc, names, index), value);
            Ok(Statement::SetElement { cell, index, value })
        }
    }
}

/// An assignment to a square cell.
#[tactic(auto, using(crate::proofs::Views::set_square_tree))]
fn set_square(
    alloc: Global,
    names: &VisibleNames,
    set: Assignment<'_>,
    row: &ast::Expression,
    column: &ast::Expression,
) -> Result<Statement, AllocError>
    ensures { IfOk result (λ s. statement_tree s
        ≡ tree.assign_square (named.cell_of (names_of names.now).place set.entry.name.now)
        (values.number_of (names_of names.now) (written.expression_tree row.now))
        (values.number_of (names_of names.now) (written.expression_tree column.now))
        (values.number_of (names_of names.now) (written.expression_tree set.entry.value.now))) }
{
    let row = number(alloc, names, row)?;
    let column = made!(number(alloc, names, column), row);
    let value = made!(number(alloc, names, set.value), row, column);
    Ok(Statement::SetSquare {
        cell: names.place.cell(set.name),
        row,
        column,
        value,
    })
}

/// An emission.
#[tactic(auto, using(crate::proofs::Views::emit_tree))]
fn emit(
    alloc: Global,
    names: &VisibleNames,
    way: Way,
    arguments: &Arguments,
    pushed: &Option<Pushed>,
) -> Result<Statement, AllocError>
    requires numbers { length (spec.emission_of (names_of names.now) way.direction way.kind
        (arguments_in (Some (written.arguments_tree arguments.now)))
        (option_map written.pushed_tree pushed.now)).numbers ≤ most_fields }
    requires content { HoldsContent
        (spec.emission_of (names_of names.now) way.direction way.kind
        (arguments_in (Some (written.arguments_tree arguments.now)))
        (option_map written.pushed_tree pushed.now)).content }
    ensures { IfOk result (λ s. statement_tree s
        ≡ tree.emit (spec.emission_of (names_of names.now) way.direction way.kind
        (arguments_in (Some (written.arguments_tree arguments.now))) (option_map written.pushed_tree pushed.now))) }
{
    let emission = emission(alloc, names, way, arguments, pushed)?;
    Ok(Statement::Emit(emission))
}

/// A block, whose names are visible in it alone.
#[cycle(blocks)]
pub fn block(
    alloc: Global,
    names: &mut VisibleNames,
    b: &ast::Block,
) -> Result<StatementBlock, AllocError>
    requires { HoldsBlock (spec.statements_of (names_of names.old) (written.block_tree b.now)) }
    ensures is { IfOk result (λ x. block_tree x ≡ spec.statements_of (names_of names.old) (written.block_tree b.now)) }
    ensures names { OnOk result
        (names_of names.new ≡ past (names_of names.old) (names_of names.old) (written.block_tree b.now)) }
{
    let outer = names.outer();
    let statements = statements(alloc, names, &b.statements)?;
    names.leave(outer);
    Ok(StatementBlock { statements })
}

/// Statements one after the other.
#[cycle(blocks)]
fn statements(
    alloc: Global,
    names: &mut VisibleNames,
    all: &[ast::Statement],
) -> Result<Vec<Statement>, AllocError>
    requires { HoldsBlock (spec.statements_of (names_of names.old) (written.statement_trees all.now)) }
    ensures is { IfOk result
        (λ made. trees (map statement_tree made.items) ≡
        spec.statements_of (names_of names.old) (written.statement_trees all.now)) }
    ensures names { OnOk result
        (names_of names.new ≡ spec.after_all (written.statement_trees all.now) (names_of names.old)) }
{
    let mut made = Vec::with_capacity(alloc, all.len())?;
    for s in all {
        made.push(statement(alloc, names, s)?)?;
    }
    Ok(made)
}

/// A statement.
#[cycle(blocks)]
fn statement(
    alloc: Global,
    names: &mut VisibleNames,
    s: &ast::Statement,
) -> Result<Statement, AllocError>
    requires { HoldsStatement (spec.statement_of (names_of names.old) (written.statement_tree s.now)) }
    ensures is { IfOk result
        (λ x. statement_tree x ≡ spec.statement_of (names_of names.old) (written.statement_tree s.now)) }
    ensures names { OnOk result
        (names_of names.new ≡ spec.following (written.statement_tree s.now) (names_of names.old)) }
{
    match s {
        ast::Statement::Let { name, value, .. } => bind(alloc, names, name, value),
        ast::Statement::Set {
            name,
            index,
            value,
            ..
        } => set(alloc, names, Assignment { name, value }, index),
        ast::Statement::SetSquare {
            name,
            row,
            column,
            value,
            ..
        } => set_square(alloc, names, Assignment { name, value }, row, column),
        ast::Statement::Emit {
            direction,
            kind,
            arguments,
            pushed,
            ..
        } => emit(
            alloc,
            names,
            Way {
                direction: *direction,
                kind: *kind,
            },
            arguments,
            pushed,
        ),
        ast::Statement::Push {
            queue,
            items,
            otherwise,
            ..
        } => push(alloc, names, otherwise, queue, items),
        ast::Statement::Take {
            queue,
            names: new,
            block: first,
            otherwise,
            ..
        } => {
            let cell = names.place.cell(&queue.name);
            let index = queue_index(alloc, names, queue)?;
            let (taken, first) = made!(taken_block(alloc, names, first, queue, new), index);
            let otherwise = made!(block(alloc, names, otherwise), index, taken, first);
            Ok(take(cell, index, taken, first, otherwise))
        }
        ast::Statement::When {
            likely,
            condition,
            block: first,
            ..
        } => when(alloc, names, first, *likely, condition),
        ast::Statement::Choose {
            likely,
            condition,
            block: first,
            otherwise,
            ..
        } => {
            let condition = number(alloc, names, condition)?;
            let way = made!(block(alloc, names, first), condition);
            let other_way = made!(block(alloc, names, otherwise), condition, way);
            Ok(branch(*likely, condition, way, other_way))
        }
        ast::Statement::Each {
            name,
            below,
            most,
            block: first,
            ..
        } => each(alloc, names, first, Turns { name, below, most }),
    }
}

/// A push of a row, and what is done where there is no room.
#[cycle(blocks)]
#[tactic(auto, using(crate::proofs::Views::push_tree))]
fn push(
    alloc: Global,
    names: &mut VisibleNames,
    otherwise: &ast::Block,
    queue: &Queue,
    items: &Arguments,
) -> Result<Statement, AllocError>
    requires { (length (spec.pushed_row (names_of names.old) (written.queue_tree queue.now)
        (arguments_in (Some (written.arguments_tree items.now)))).numbers ≤ most_fields)
        × HoldsBlock (spec.statements_of (names_of names.old) (written.block_tree otherwise.now)) }
    ensures is { IfOk result (λ s. statement_tree s
        ≡ tree.push (values.queue_cell (names_of names.old) (written.queue_tree queue.now))
        (values.queue_index (names_of names.old) (written.queue_tree queue.now))
        (named.capacity_of (names_of names.old).place (queue_name (written.queue_tree queue.now)))
        (spec.pushed_row (names_of names.old) (written.queue_tree queue.now)
        (arguments_in (Some (written.arguments_tree items.now))))
        (spec.statements_of (names_of names.old) (written.block_tree otherwise.now))) }
    ensures names { OnOk result
        (names_of names.new ≡ past (names_of names.old) (names_of names.old) (written.block_tree otherwise.now)) }
{
    let cell = names.place.cell(&queue.name);
    let capacity = names.place.capacity(&queue.name);
    let index = queue_index(alloc, names, queue)?;
    let row = made!(pushed_row(alloc, names, queue, items), index);
    let otherwise = made!(block(alloc, names, otherwise), index, row);
    Ok(Statement::Push {
        cell,
        index,
        capacity,
        row,
        otherwise,
    })
}

/// The slots of a taken row, and the block in which the names of its parts are visible.
#[cycle(blocks)]
fn taken_block(
    alloc: Global,
    names: &mut VisibleNames,
    first: &ast::Block,
    queue: &Queue,
    new: &ast::Names,
) -> Result<(Taken, StatementBlock), AllocError>
    requires { AllByRecursion IsByte
        (spec.taken_row (names_of names.old) (written.queue_tree queue.now)
        (names_in (Some (written.names_tree new.now)))).numbers
        × HoldsSlot (spec.taken_row (names_of names.old) (written.queue_tree queue.now)
        (names_in (Some (written.names_tree new.now)))).message
        × HoldsBlock (spec.statements_of
        (spec.with_taken (written.queue_tree queue.now) (names_in (Some (written.names_tree new.now)))
        (names_of names.old)) (written.block_tree first.now)) }
    ensures taken { IfOk result (λ x. taken_tree x.0
        ≡ spec.taken_row (names_of names.old) (written.queue_tree queue.now)
        (names_in (Some (written.names_tree new.now)))) }
    ensures block { IfOk result (λ x. block_tree x.1
        ≡ spec.statements_of (spec.with_taken (written.queue_tree queue.now)
        (names_in (Some (written.names_tree new.now))) (names_of names.old)) (written.block_tree first.now)) }
    ensures names { OnOk result (names_of names.new
        ≡ (past (names_of names.old) (spec.with_taken (written.queue_tree queue.now)
        (names_in (Some (written.names_tree new.now))) (names_of names.old)) (written.block_tree first.now))) }
{
    let outer = names.outer();
    let taken = take_row(alloc, names, queue, new)?;
    let first = made!(block(alloc, names, first), taken);
    names.leave(outer);
    Ok((taken, first))
}

/// A take of a row, and what is done where there is none.
#[tactic(auto, using(crate::proofs::Views::take_tree))]
fn take(
    cell: u8,
    index: Expression,
    taken: Taken,
    first: StatementBlock,
    otherwise: StatementBlock,
) -> Statement
    ensures { statement_tree result ≡ tree.take cell (expression_tree index) (taken_tree taken) (block_tree first)
        (block_tree otherwise) }
{
    Statement::Take {
        cell,
        index,
        taken,
        block: first,
        otherwise,
    }
}

/// A block without statements.
fn empty(alloc: Global) -> StatementBlock
    ensures { block_tree result ≡ tree.none }
{
    StatementBlock {
        statements: Vec::new(alloc),
    }
}

/// A condition with two ways.
#[tactic(auto, using(crate::proofs::Views::branch_tree))]
fn branch(
    likely: Likely,
    condition: Expression,
    first: StatementBlock,
    otherwise: StatementBlock,
) -> Statement
    ensures { statement_tree result ≡ tree.branch likely (expression_tree condition) (block_tree first)
        (block_tree otherwise) }
{
    Statement::Branch {
        likely,
        condition,
        block: first,
        otherwise,
    }
}

/// A condition without another way.
#[cycle(blocks)]
fn when(
    alloc: Global,
    names: &mut VisibleNames,
    first: &ast::Block,
    likely: Likely,
    condition: &ast::Expression,
) -> Result<Statement, AllocError>
    requires { HoldsBlock (spec.statements_of (names_of names.old) (written.block_tree first.now)) }
    ensures is { IfOk result (λ s. statement_tree s
        ≡ tree.branch likely (values.number_of (names_of names.old) (written.expression_tree condition.now))
        (spec.statements_of (names_of names.old) (written.block_tree first.now)) tree.none) }
    ensures names { OnOk result
        (names_of names.new ≡ past (names_of names.old) (names_of names.old) (written.block_tree first.now)) }
{
    let condition = number(alloc, names, condition)?;
    let first = made!(block(alloc, names, first), condition);
    Ok(branch(likely, condition, first, empty(alloc)))
}

/// The turns of a loop: the name that counts them, the number below which it stays, and how many there are at most.
#[derive(Clone, Copy)]
struct Turns<'a> {
    name: &'a Name,
    below: &'a ast::Expression,
    most: &'a Size,
}

/// A loop.
#[cycle(blocks)]
#[tactic(auto, using(crate::proofs::Views::each_tree))]
fn each(
    alloc: Global,
    names: &mut VisibleNames,
    first: &ast::Block,
    turns: Turns<'_>,
) -> Result<Statement, AllocError>
    requires { IsByte (names_of names.old).taken.numbers
        × IsByte (named.size_value (names_of names.old).place (written.size_tree turns.most.now))
        × HoldsBlock (spec.statements_of (named.with_numbers (turns.name.now ∷ []) (names_of names.old))
        (written.block_tree first.now)) }
    ensures is { IfOk result (λ s. statement_tree s
        ≡ tree.each (names_of names.old).taken.numbers
        (values.number_of (names_of names.old) (written.expression_tree turns.entry.below.now))
        (named.size_value (names_of names.old).place (written.size_tree turns.entry.most.now))
        (spec.statements_of (named.with_numbers (turns.entry.name.now ∷ []) (names_of names.old))
        (written.block_tree first.now))) }
    ensures names { OnOk result (names_of names.new
        ≡ past (names_of names.old) (named.with_numbers (turns.entry.name.now ∷ []) (names_of names.old))
        (written.block_tree first.now)) }
{
    let below = number(alloc, names, turns.below)?;
    let most = names.place.size(turns.most) as u8;
    let slot = names.numbers.taken() as u8;
    let outer = names.outer();
    made!(names.bring_numbers(&[*turns.name]), below);
    let first = made!(block(alloc, names, first), below);
    names.leave(outer);
    Ok(Statement::Each {
        slot,
        below,
        most,
        block: first,
    })
}

//! What a layer's visits need a desk to be made for.

ghost use Rattle.std.specs.Prelude.{◌≡◌, map, option_map};
ghost use Rattle.stack_mean.specs.Acceptance.{held_at_most};
ghost use Rattle.typed_layer.specs.View.{message_tree, row_tree, emission_tree, statement_tree, block_tree};
ghost use Rattle.typed_layer.specs.View.{handler_tree, layer_tree};
ghost use Rattle.layer_desk.specs.Need.{lifts, row_lifts, emission_lifts, in_hand, block_in_hand};
ghost use Rattle.desk_needs.specs.Layouts.{most, layout_of};
ghost use Rattle.desk_needs.specs.Reserved.{layout_reserve};

use typed_layer::{
    Emission, Handler, MessageExpression, RowExpression, Statement, StatementBlock, TypedLayer,
};

/// The most numbers and messages that a handler's block declares, and the most messages that one has in hand, as far as
/// 32 bits hold that number.
#[derive(Clone, Copy, Debug, PartialEq, Eq)]
pub struct Reserve {
    pub numbers: u8,
    pub messages: u8,
    pub hand: u32,
}

/// What a desk of this layer has to be made for, besides the rows of its queues.
pub fn reserve_for(layer: &TypedLayer) -> Reserve
    ensures { result ≡ layout_reserve (layout_of (layer_tree layer.now) 0) }
{
    let handlers = layer.handlers.slice();
    Reserve {
        numbers: most_numbers(handlers),
        messages: most_messages(handlers),
        hand: most_in_hand(handlers),
    }
}

fn most_numbers(handlers: &[Handler]) -> u8
    ensures { result ≡ most (λ h. h.numbers) (map handler_tree handlers.now) }
{
    let mut most = 0;
    for handler in handlers {
        most = handler.numbers.max(most);
    }
    most
}

fn most_messages(handlers: &[Handler]) -> u8
    ensures { result ≡ most (λ h. h.messages) (map handler_tree handlers.now) }
{
    let mut most = 0;
    for handler in handlers {
        most = handler.messages.max(most);
    }
    most
}

fn most_in_hand(handlers: &[Handler]) -> u32
    ensures { result ≡ held_at_most (most (λ h. block_in_hand h.block) (map handler_tree handlers.now)) }
{
    let mut most = 0;
    for handler in handlers {
        most = of_block(&handler.block).max(most);
    }
    most
}

fn of_message(message: &MessageExpression) -> u32
    ensures { result ≡ held_at_most (lifts (message_tree message.now)) }
{
    match message {
        MessageExpression::Local(_) => 1,
        MessageExpression::Nothing => 1,
        MessageExpression::Held {
            cell: _,
            index: _,
            row: _,
            carried: _,
        } => 1,
        MessageExpression::Cut {
            message,
            from: _,
            length: _,
        } => of_message(message),
        MessageExpression::Tail { message, from: _ } => of_message(message),
        MessageExpression::Join { first, second } => {
            of_message(first).saturating_add(of_message(second))
        }
    }
}

fn of_row(row: &RowExpression) -> u32
    ensures { result ≡ held_at_most (row_lifts (row_tree row.now)) }
{
    match &row.message {
        None => 0,
        Some(message) => of_message(message),
    }
}

fn of_emission(emission: &Emission) -> u32
    ensures { result ≡ held_at_most (emission_lifts (emission_tree emission.now)) }
{
    match &emission.content {
        None => 0,
        Some(content) => of_message(&content.message),
    }
}

#[cycle(in_hand)]
fn of_statement(statement: &Statement) -> u32
    ensures { result ≡ held_at_most (in_hand (statement_tree statement.now)) }
{
    match statement {
        Statement::Push {
            cell: _,
            index: _,
            capacity: _,
            row,
            otherwise,
        } => of_row(row).max(of_block(otherwise)),
        Statement::Take {
            cell: _,
            index: _,
            taken: _,
            block,
            otherwise,
        } => of_block(block).max(of_block(otherwise)),
        Statement::Branch {
            likely: _,
            condition: _,
            block,
            otherwise,
        } => of_block(block).max(of_block(otherwise)),
        Statement::Each {
            slot: _,
            below: _,
            most: _,
            block,
        } => of_block(block),
        Statement::Emit(emission) => of_emission(emission),
        Statement::Bind { slot: _, value: _ } => 0,
        Statement::Set { cell: _, value: _ } => 0,
        Statement::SetElement {
            cell: _,
            index: _,
            value: _,
        } => 0,
        Statement::SetSquare {
            cell: _,
            row: _,
            column: _,
            value: _,
        } => 0,
    }
}

#[cycle(in_hand)]
fn of_block(block: &StatementBlock) -> u32
    ensures { result ≡ held_at_most (block_in_hand (block_tree block.now)) }
{
    let mut most = 0;
    for statement in block.statements.as_slice() {
        most = of_statement(statement).max(most);
    }
    most
}

//! The trees that members run.

ghost use Rattle.std.specs.Prelude.{◌≤◌};
ghost use Rattle.msg_core.specs.Headers.{most_fields};

use crate::handlers::Handlers;
use layer_words::{Dir, Function, Kind, Likely, Operator, Shape, Word};
use std::marker::Model;

/// A layer at its place. Names are kept for reports alone.
#[derive(Drop)]
pub struct TypedLayer {
    pub name: Word,
    /// Numbered in the order of their declarations.
    pub cells: Vec<Cell>,
    /// The declared headers; the first has tag 1.
    pub headers: Vec<HeaderForm>,
    pub handlers: Handlers,
}

/// A cell of a layer.
#[derive(Drop)]
pub struct Cell {
    pub name: Word,
    pub form: Form,
}

/// What a cell is.
#[derive(Drop)]
pub enum Form {
    /// Numbers of a shape, which are all this at first.
    Numbers { shape: Shape, initial: Expression },
    /// A queue of at most `capacity` rows.
    Queue { capacity: u8, items: Items },
    /// Such a queue for each member of the view.
    Queues { capacity: u8, items: Items },
}

/// The items of a queue's rows: numbers, and the message that a row may end with.
#[derive(Drop)]
pub struct Items {
    pub numbers: Vec<Word>,
    pub message: Option<ItemMessage>,
}

/// The last item of rows that end with a message.
#[derive(Clone, Copy)]
pub struct ItemMessage {
    pub name: Word,
    pub carried: Carried,
}

/// What the rows of a queue carry beside their numbers.
#[derive(Clone, Copy, Debug, PartialEq, Eq)]
pub enum Carried {
    /// Bytes alone.
    Part,
    /// A message of the layers above; one with their headers `none` stands in for a row that isn't there.
    Whole(Blank),
}

/// The places above a layer: the first, and how many there are.
#[derive(Clone, Copy, Debug, PartialEq, Eq)]
pub struct Blank {
    pub first: u8,
    pub count: u8,
}

/// A header that a layer declares, with at most four numbers.
#[derive(Drop)]
pub struct HeaderForm {
    pub name: Word,
    pub fields: u8,
    /// Whether it closes the chain; else the headers of the layers above follow.
    pub ends: bool,
    ghost few: { fields ≤ most_fields },
}

/// What a layer does on an event of one direction, kind and popped header. Its scope has the event's numbers, the
/// header's fields and the event's message, and after these `numbers` numbers and `messages` messages more, which its
/// block declares.
#[derive(Drop)]
pub struct Handler {
    pub direction: Dir,
    pub kind: Kind,
    /// The tag of the popped header; 0 going down.
    pub tag: u8,
    pub expected: Expected,
    pub numbers: u8,
    pub messages: u8,
    pub block: StatementBlock,
}

/// When a handler goes as predicted.
#[derive(Drop)]
pub enum Expected {
    Always,
    /// Where this isn't 0 at entry.
    Common(Expression),
    /// Never.
    Rare,
}

/// Statements in order.
#[cycle(statement)]
#[derive(Drop)]
pub struct StatementBlock {
    pub statements: Vec<Statement>,
}

/// A statement whose names are resolved: numbers of the scope, cells, queues and headers by their places.
#[cycle(statement)]
#[derive(Drop)]
pub enum Statement {
    /// Sets a number of the scope.
    Bind {
        slot: u8,
        value: Expression,
    },
    /// Sets the number of a cell of one number.
    Set {
        cell: u8,
        value: Expression,
    },
    /// Sets a number of an array.
    SetElement {
        cell: u8,
        index: Expression,
        value: Expression,
    },
    /// Sets a number of a square cell.
    SetSquare {
        cell: u8,
        row: Expression,
        column: Expression,
        value: Expression,
    },
    /// Puts a row at the back of a queue of a capacity, or runs a block where it is full. A queue that is alone has the
    /// index 0.
    Push {
        cell: u8,
        index: Expression,
        capacity: u8,
        row: RowExpression,
        otherwise: StatementBlock,
    },
    /// Takes the front row of a queue and runs a block, or another where there is none.
    Take {
        cell: u8,
        index: Expression,
        taken: Taken,
        block: StatementBlock,
        otherwise: StatementBlock,
    },
    /// Runs one of two blocks by a condition.
    Branch {
        likely: Likely,
        condition: Expression,
        block: StatementBlock,
        otherwise: StatementBlock,
    },
    /// Runs a block for 0, 1 and so on, below a number and a maximum; a slot tells the block which.
    Each {
        slot: u8,
        below: Expression,
        most: u8,
        block: StatementBlock,
    },
    /// Sends an event.
    Emit(Emission),
}

/// What a row is made of.
#[derive(Drop)]
pub struct RowExpression {
    pub numbers: Numbers,
    pub message: Option<MessageExpression>,
}

/// The slots that a taken row fills.
#[derive(Drop)]
pub struct Taken {
    pub numbers: Vec<u8>,
    pub message: Option<TakenMessage>,
}

/// The slot of a taken row's message.
#[derive(Clone, Copy, Debug, PartialEq, Eq)]
pub struct TakenMessage {
    pub slot: u8,
    pub carried: Carried,
}

/// An event for a neighbour, with its number arguments in the order in which they are written.
#[derive(Drop)]
pub struct Emission {
    pub direction: Dir,
    pub kind: Kind,
    pub numbers: Numbers,
    pub content: Option<Content>,
}

/// The message of an emission, and the header that is pushed on it going down.
#[derive(Drop)]
pub struct Content {
    pub message: MessageExpression,
    pub tag: u8,
    pub fields: Numbers,
}

/// At most four expressions, which contracts see as their list.
#[derive(Drop)]
pub struct Numbers {
    expressions: Vec<Expression>,
}

impl Model for Numbers {
    ghost use Rattle.std.specs.Prelude.{List, ◌≤◌, length};
    ghost use Rattle.std.specs.Coded.{codes};
    ghost use Rattle.typed_layer.specs.declared.tree.Expression.{Expression};
    ghost use Rattle.typed_layer.specs.contracts.tree.Expression as expression;
    ghost use Rattle.msg_core.specs.Headers.{most_fields};

    ghost Value = { List Expression };

    ghost coded = { Prim.hlevel (codes, expression.the_row.coded) };

    ghost view = { λ n. n.expressions.items };

    ghost invariant = { λ n. length n.expressions.items ≤ most_fields };
}

impl Numbers {
    ghost use Rattle.std.specs.Prelude.{◌≡◌, ◌≤◌, length, vec_len};

    /// These expressions, of which there are at most four.
    pub fn of(expressions: Vec<Expression>) -> Numbers
        requires { vec_len expressions ≤ most_fields }
        ensures { result ≡ expressions.items }
    {
        Numbers { expressions }
    }

    /// The expressions in order, of which there are at most four.
    pub fn slice(&self) -> &[Expression]
        ensures value { result.now ≡ self.now }
        ensures few { length result.now ≤ most_fields }
    {
        self.expressions.as_slice()
    }
}

/// An expression that is worth a number.
#[cycle(expression)]
#[derive(Drop)]
pub enum Expression {
    Number(u32),
    /// The own rank.
    Me,
    /// The number of members.
    Count,
    /// How many views came before.
    Ltime,
    /// A number of the scope.
    Local(u8),
    /// The number of a cell of one number.
    Scalar(u8),
    /// A number of an array, 0 outside.
    Element {
        cell: u8,
        index: Box<Expression>,
    },
    /// A number of a square cell, 0 outside.
    Square {
        cell: u8,
        row: Box<Expression>,
        column: Box<Expression>,
    },
    /// The number of rows of a queue; one that is alone has the index 0.
    Rows {
        cell: u8,
        index: Box<Expression>,
    },
    /// A number of a row of a queue, 0 where there is no such row.
    Item {
        cell: u8,
        index: Box<Expression>,
        row: Box<Expression>,
        number: u8,
    },
    /// The number of bytes of a message.
    Size(Box<MessageExpression>),
    Binary {
        operator: Operator,
        left: Box<Expression>,
        right: Box<Expression>,
    },
    Apply {
        function: Function,
        operand: Box<Expression>,
    },
    /// One of two numbers by a condition.
    Pick {
        condition: Box<Expression>,
        first: Box<Expression>,
        second: Box<Expression>,
    },
}

/// An expression that is worth a message.
#[cycle(expression)]
#[derive(Drop)]
pub enum MessageExpression {
    /// A message of the scope.
    Local(u8),
    /// No bytes.
    Nothing,
    /// The message of a row of a queue.
    Held {
        cell: u8,
        index: Box<Expression>,
        row: Box<Expression>,
        carried: Carried,
    },
    /// `length` bytes of a message from a place on.
    Cut {
        message: Box<MessageExpression>,
        from: Box<Expression>,
        length: Box<Expression>,
    },
    /// A message without its first bytes.
    Tail {
        message: Box<MessageExpression>,
        from: Box<Expression>,
    },
    /// A part before a message.
    Join {
        first: Box<MessageExpression>,
        second: Box<MessageExpression>,
    },
}

//! The trees of a layer file. Each thing that has a place in the text keeps that of its first
//! token; where the first token is a name, the name keeps it.
use crate::names::Name;
use layer_words::{At, Dir, Function, Kind, Likely, Operator, Shape, Sort};

/// The most bytes of a file.
pub const LONGEST_FILE: u32 = 1_048_576;

/// `{ layer } "stack" "{" place { place } "}"`
#[derive(Drop)]
pub struct File {
    pub layers: Vec<Layer>,
    pub places: Vec<Place>,
    /// The layers that places name and the library brings; they aren't spelled in the file.
    pub library: Vec<Layer>,
}

/// `NAME [ "(" given { "," given } ")" ] ";"`, a layer of the stack.
#[derive(Drop)]
pub struct Place {
    pub name: Name,
    /// Empty where the place gives no params.
    pub given: Vec<Given>,
}

/// `NAME "=" NUMBER`, a param that a place gives.
#[derive(Clone, Copy)]
pub struct Given {
    pub name: Name,
    pub value: u32,
}

/// `"layer" NAME "{" { declaration } { handler } "}"`
#[derive(Drop)]
pub struct Layer {
    pub at: At,
    pub name: Name,
    pub declarations: Vec<Declaration>,
    pub handlers: Vec<Handler>,
}

/// A declaration of a layer, with its place.
#[derive(Drop)]
pub enum Declaration {
    /// `"param" NAME "=" NUMBER ";"`
    Param {
        at: At,
        name: Name,
        value: u32,
    },
    /// `"state" "int" NAME [ "[" "n" [ "*" "n" ] "]" ] [ "=" expression ] ";"`
    Int {
        at: At,
        name: Name,
        shape: Shape,
        initial: Option<Expression>,
    },
    /// `"state" "queue" NAME "[" size "]" "of" "(" items ")" ";"`
    Queue {
        at: At,
        name: Name,
        capacity: Size,
        items: Items,
    },
    /// `"state" "queue" NAME "[" "n" "]" "[" size "]" "of" "(" items ")" ";"`
    Queues {
        at: At,
        name: Name,
        capacity: Size,
        items: Items,
    },
    /// `"header" NAME "(" [ names ] ")" ( "passes" | "ends" ) ";"`
    Header {
        at: At,
        name: Name,
        fields: Option<Names>,
        ending: Ending,
    },
}

/// Whether the headers of the layers above follow a header.
#[derive(Clone, Copy, PartialEq, Eq, Debug)]
pub enum Ending {
    Passes,
    Ends,
}

/// `NUMBER | NAME`, a capacity or the maximum of a loop.
#[derive(Clone, Copy)]
pub enum Size {
    Number { at: At, value: u32 },
    Named { name: Name },
}

/// `item { "," item }`
#[derive(Drop)]
pub struct Items {
    pub first: Item,
    pub rest: Vec<Item>,
}

/// `NAME ":" ( "int" | "msg" | "part" )`
#[derive(Clone, Copy)]
pub struct Item {
    pub name: Name,
    pub sort: Sort,
}

/// `NAME { "," NAME }`
#[derive(Drop)]
pub struct Names {
    pub first: Name,
    pub rest: Vec<Name>,
}

/// `( "up" | "down" ) KIND "(" names ")" [ "with" .. ] [ "common" expression | "rare" ] block`
#[derive(Drop)]
pub struct Handler {
    pub at: At,
    pub direction: Dir,
    pub kind: Kind,
    pub names: Names,
    pub popped: Option<Popped>,
    pub expected: Expected,
    pub block: Block,
}

/// `"with" NAME "(" [ names ] ")"` of a handler: the header that it takes off.
#[derive(Drop)]
pub struct Popped {
    pub name: Name,
    pub fields: Option<Names>,
}

/// When a handler is predicted.
#[derive(Drop)]
pub enum Expected {
    Always,
    /// `"common" expression`
    Common(Expression),
    /// `"rare"`
    Rare,
}

/// `"{" { statement } "}"`
#[cycle(statement)]
#[derive(Drop)]
pub struct Block {
    pub statements: Vec<Statement>,
}

/// A statement of a handler, with its place.
#[cycle(statement)]
#[derive(Drop)]
pub enum Statement {
    /// `"let" NAME "=" expression ";"`
    Let {
        at: At,
        name: Name,
        value: Expression,
    },
    /// `"set" NAME [ "[" expression "]" ] "=" expression ";"`
    Set {
        at: At,
        name: Name,
        index: Option<Expression>,
        value: Expression,
    },
    /// `"set" NAME "[" expression "]" "[" expression "]" "=" expression ";"`
    SetSquare {
        at: At,
        name: Name,
        row: Expression,
        column: Expression,
        value: Expression,
    },
    /// `"push" queue "(" arguments ")" "else" block`
    Push {
        at: At,
        queue: Queue,
        items: Arguments,
        otherwise: Block,
    },
    /// `"take" queue "(" names ")" block "else" block`
    Take {
        at: At,
        queue: Queue,
        names: Names,
        block: Block,
        otherwise: Block,
    },
    /// `"if" [ "rare" | "two" ] expression block`
    When {
        at: At,
        likely: Likely,
        condition: Expression,
        block: Block,
    },
    /// `"if" [ "rare" | "two" ] expression block "else" block`
    Choose {
        at: At,
        likely: Likely,
        condition: Expression,
        block: Block,
        otherwise: Block,
    },
    /// `"each" NAME "below" expression "max" size block`
    Each {
        at: At,
        name: Name,
        below: Expression,
        most: Size,
        block: Block,
    },
    /// `( "up" | "down" ) KIND "(" arguments ")" [ "with" .. ] ";"`
    Emit {
        at: At,
        direction: Dir,
        kind: Kind,
        arguments: Arguments,
        pushed: Option<Pushed>,
    },
}

/// `"with" NAME "(" [ arguments ] ")"` of a statement: the header that it puts on.
#[derive(Drop)]
pub struct Pushed {
    pub name: Name,
    pub fields: Option<Arguments>,
}

/// `argument { "," argument }`
#[derive(Drop)]
pub struct Arguments {
    pub first: Argument,
    pub rest: Vec<Argument>,
}

/// `expression | built`: a bare name stands as an expression, whatever it turns out to name, so that it
/// has one reading.
#[derive(Drop)]
pub enum Argument {
    Value(Expression),
    Content(Built),
}

/// An expression as it is written, of a number or of a message, with its place.
#[cycle(expression)]
#[derive(Drop)]
pub enum Expression {
    Number {
        at: At,
        value: u32,
    },
    /// `"me"`, the rank of the member.
    Me {
        at: At,
    },
    /// `"n"`, the number of members.
    Members {
        at: At,
    },
    /// `"ltime"`, how many views came before.
    Ltime {
        at: At,
    },
    /// `NAME [ "[" expression "]" ]`
    Named {
        name: Name,
        index: Option<Box<Expression>>,
    },
    /// `NAME "[" expression "]" "[" expression "]"`
    Square {
        name: Name,
        row: Box<Expression>,
        column: Box<Expression>,
    },
    /// `"len" "(" queue ")"`
    Rows {
        at: At,
        queue: Queue,
    },
    /// `"at" "(" queue "," expression ")" "." NAME`
    Item {
        at: At,
        queue: Queue,
        row: Box<Expression>,
        label: Name,
    },
    /// `"size" "(" message ")"`
    Size {
        at: At,
        message: Box<MessageExpression>,
    },
    /// `"(" expression operator expression ")"`
    Binary {
        at: At,
        left: Box<Expression>,
        operator: Operator,
        right: Box<Expression>,
    },
    /// `function "(" expression ")"`
    Apply {
        at: At,
        function: Function,
        operand: Box<Expression>,
    },
    /// `"pick" "(" expression "," expression "," expression ")"`
    Pick {
        at: At,
        condition: Box<Expression>,
        first: Box<Expression>,
        second: Box<Expression>,
    },
}

/// `NAME [ "[" expression "]" ]`, a queue or one of an array.
#[cycle(expression)]
#[derive(Drop)]
pub struct Queue {
    pub name: Name,
    pub index: Option<Box<Expression>>,
}

/// `NAME | built`
#[cycle(expression)]
#[derive(Drop)]
pub enum MessageExpression {
    Bare(Name),
    Built(Built),
}

/// A message that is no bare name.
#[cycle(expression)]
#[derive(Drop)]
pub enum Built {
    /// `"nothing"`
    Nothing {
        at: At,
    },
    /// `"held" "(" queue "," expression ")"`
    Held {
        at: At,
        queue: Queue,
        row: Box<Expression>,
    },
    /// `"cut" "(" message "," expression "," expression ")"`
    Cut {
        at: At,
        message: Box<MessageExpression>,
        from: Box<Expression>,
        length: Box<Expression>,
    },
    /// `"tail" "(" message "," expression ")"`
    Tail {
        at: At,
        message: Box<MessageExpression>,
        from: Box<Expression>,
    },
    /// `"join" "(" message "," message ")"`
    Join {
        at: At,
        first: Box<MessageExpression>,
        second: Box<MessageExpression>,
    },
}

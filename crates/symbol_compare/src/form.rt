//! Values as they stand in a table: each is made of earlier ones, which it names by their numbers.

use layer_words::{Dir, Function, Kind, Operator};
use trace_core::Load;

/// A cell as it is read: how many earlier operations of the trace wrote to it.
#[derive(Clone, Copy, Debug, PartialEq, Eq, Hash)]
pub struct Seen {
    pub place: u8,
    pub cell: u8,
    pub writes: u32,
}

/// A number.
#[derive(Clone, Copy, Debug, PartialEq, Eq, Hash)]
pub enum NumberForm {
    Number(u32),
    /// The peer of the input.
    Peer,
    /// A variable field of the input's packet.
    Field(u32),
    /// The member's own rank.
    Me,
    /// The number of members.
    Count,
    /// How many views came before.
    Ltime,
    /// A number of a row that was taken.
    Taken {
        row: u32,
        number: u8,
    },
    /// A number of a row that wasn't taken yet.
    Untaken(u8),
    Element {
        seen: Seen,
        index: u32,
    },
    Square {
        seen: Seen,
        row: u32,
        column: u32,
    },
    Rows {
        seen: Seen,
        index: u32,
    },
    Item {
        seen: Seen,
        index: u32,
        row: u32,
        number: u8,
    },
    Size(u32),
    Binary {
        operator: Operator,
        left: u32,
        right: u32,
    },
    Apply {
        function: Function,
        operand: u32,
    },
    Pick {
        condition: u32,
        first: u32,
        second: u32,
    },
}

/// A message without its known headers.
#[derive(Clone, Copy, Debug, PartialEq, Eq, Hash)]
pub enum MessageForm {
    /// The body of the input.
    Body,
    /// No bytes.
    Nothing,
    /// The message of a row that was taken.
    Taken {
        row: u32,
        load: Load,
    },
    /// That of a row that wasn't taken yet.
    Untaken(Load),
    Held {
        seen: Seen,
        index: u32,
        row: u32,
        load: Load,
    },
    Cut {
        message: u32,
        from: u32,
        length: u32,
    },
    Tail {
        message: u32,
        from: u32,
    },
    Join {
        first: u32,
        second: u32,
    },
}

/// What is stored and sent: numbers, known headers, and messages after these.
#[derive(Clone, Copy, Debug, PartialEq, Eq, Hash)]
pub enum SentForm {
    NoNumbers,
    Numbers {
        first: u32,
        rest: u32,
    },
    NoLinks,
    Link {
        place: u8,
        tag: u8,
        fields: u32,
        rest: u32,
    },
    /// No message.
    Nothing,
    Message {
        chain: u32,
        message: u32,
    },
}

/// A value of any kind.
#[derive(Clone, Copy, Debug, PartialEq, Eq, Hash)]
pub enum ValueForm {
    Number(NumberForm),
    Message(MessageForm),
    Sent(SentForm),
}

/// What a trace does besides binding and noting, with numbers of values.
#[derive(Clone, Copy, Debug, PartialEq, Eq)]
pub enum ActForm {
    Check(u32),
    Set {
        place: u8,
        cell: u8,
        index: u32,
        value: u32,
    },
    SetSquare {
        place: u8,
        cell: u8,
        row: u32,
        column: u32,
        value: u32,
    },
    Push {
        place: u8,
        cell: u8,
        index: u32,
        numbers: u32,
        message: u32,
    },
    Take {
        place: u8,
        cell: u8,
        index: u32,
    },
    Output {
        dir: Dir,
        kind: Kind,
        numbers: u32,
        message: u32,
    },
}

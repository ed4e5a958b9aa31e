//! What a layout goes by.

/// What a token or a comment is for the layout.
#[derive(Clone, Copy, PartialEq, Eq, Debug)]
pub enum Class {
    /// A comment.
    Remark,
    /// `{`
    Opening,
    /// `}`
    Closing,
    /// `(`
    Parenthesis,
    /// `[`
    Bracket,
    /// `.`
    Dot,
    /// `;`
    Semicolon,
    /// `,` `)` `]` and `:`
    Tight,
    /// `layer`
    Layer,
    /// `stack`
    Stack,
    /// `param`, `state` and `header`
    Declaring,
    /// `up` and `down`
    Going,
    /// `push` and `take`
    Queueing,
    /// A word from which a parenthesis stands apart, and every other sign.
    Apart,
    /// Every other word.
    Plain,
}

/// Where in a file the next token or comment stands.
#[derive(Clone, Copy, PartialEq, Eq, Debug)]
pub struct Stand {
    /// How many braces are open, where no more than `DEEPEST` are.
    pub depth: u8,
    /// Whether the last of the words `layer` and `stack` was `layer`.
    pub in_layer: bool,
    /// What stands before it.
    pub last: Class,
}

/// The most open braces that are told apart.
pub const DEEPEST: u8 = 100;

/// How far a line is indented for each open brace.
pub const STEP: usize = 2;

/// How much further it is where it goes on with a statement.
pub const HANG: usize = 4;

/// How many bytes stand before a comment that ends a line, if there are no more.
pub const COMMENT_COLUMN: usize = 37;

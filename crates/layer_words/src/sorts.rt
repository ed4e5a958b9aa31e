//! What cells hold, and which way conditions are predicted to go.

/// How many numbers a cell of numbers has.
#[derive(Clone, Copy, PartialEq, Eq, Debug)]
pub enum Shape {
    One,
    /// `[n]`, one for each member.
    Array,
    /// `[n*n]`, one for each pair of members.
    Square,
}

/// What an item of a row is.
#[derive(Clone, Copy, PartialEq, Eq, Debug)]
pub enum Sort {
    Int,
    /// A message with the headers of the layers above.
    Msg,
    /// A message of bytes alone.
    Part,
}

/// Which way a condition is predicted to go.
#[derive(Clone, Copy, PartialEq, Eq, Debug)]
pub enum Likely {
    /// `"if"`: into the first block.
    First,
    /// `"if" "rare"`: past it.
    Else,
    /// `"if" "two"`: into the first block in the first of two common cases, past it in the second.
    Two,
}

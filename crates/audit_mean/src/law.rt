//! The laws of a group, and what an audit finds.

/// A law of a group, on what its members delivered.
#[derive(Clone, Copy, Debug, PartialEq, Eq)]
pub enum Law {
    /// Members deliver the casts of each peer in one order.
    Sender,
    /// Members deliver all casts in one order.
    Total,
    /// Members that go from one view to the next together delivered the same casts in it.
    Same,
}

/// What a report says of a law.
#[derive(Clone, Copy, Debug, PartialEq, Eq)]
pub enum Finding {
    Holds,
    /// The numbers of two lines, counted from 1, that break the law together: of all breaches the one
    /// whose second number is the least, and of these the one whose first is.
    Breach(u32, u32),
}

//! How long code may be.

/// The most steps of code: each keeps a slot of the pool at most once more, and counts of references stay numbers.
pub const MOST_STEPS: usize = 1_073_741_824;

//! What a search finds.

use crate::choice::Choice;

/// What a search finds.
#[derive(Drop)]
pub enum Found {
    /// Each script keeps the law.
    Holds,
    /// These events are a shortest script that breaks it.
    Breach(Vec<Choice>),
    /// The time was up before all were tried: each script of at most this many events keeps the law.
    HoldsTo(u16),
}

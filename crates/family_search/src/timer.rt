//! The time of a search.

/// What watches over the time of a search.
pub trait Timer {
    /// A script is tried.
    fn note_script(&mut self);

    /// Whether the time is up.
    fn is_late(&mut self) -> bool;
}

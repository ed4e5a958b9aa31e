//! The bounds of a family.

use audit_judge::Law;

/// The law that is asked about, how many events a script has at most, and how often a packet may be given again to a
/// member.
#[derive(Clone, Copy)]
pub struct Bounds {
    pub law: Law,
    pub events: u16,
    pub repeats: u16,
}

//! How the runs of a hunt go.

/// What happens above all in the runs of a hunt. It says only where a hunt looks: a find is one in any style.
#[derive(Clone, Copy, Debug, PartialEq, Eq)]
pub enum Style {
    /// Some of all, drawn for each run.
    Mixed,
    /// Members cast many times in a row, however much is on its way.
    Flood,
    /// Members crash for good, one after the other.
    Crash,
    /// The network parts into three and heals, again and again.
    Part,
}

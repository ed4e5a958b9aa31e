//! Where things stand in a picture.
ghost use Rattle.std.specs.Prelude.{◌≡◌, ◌≤◌};
ghost use Rattle.chart_mean.specs.Place as spec;

/// The left end of all rows.
pub(crate) const LEFT: u64 = 40;

/// The row of the lines that are beside the members.
pub(crate) const AXIS: u64 = 48;

/// Where the first line stands.
pub(crate) const FIRST_X: u64 = 52;

/// How far down a member's row stands.
pub(crate) fn down(member: u32) -> u64
    ensures is { result ≡ spec.down member }
    ensures inside { (112 ≤ result) × (result ≤ 412316860432) }
{
    112 + 96 * u64::from(member)
}

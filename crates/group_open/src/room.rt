//! Whether members have room.

ghost use Rattle.std.specs.Prelude.{◌≡◌, nat_le};
ghost use Rattle.stack_judge.specs.Answer.{stack_tree};
ghost use Rattle.stack_mean.specs.Acceptance.{most_rows, rows_of};

use stack_judge::{MOST_ROWS, Stack};

/// Whether each member of a view of this many may keep `MOST_ROWS` rows with messages at most; if not, no such group is
/// opened.
pub fn has_room(stack: &Stack, members: u8) -> bool
    ensures { result ≡ nat_le (rows_of (stack_tree stack.now) members) most_rows }
{
    stack.rows(members) <= MOST_ROWS
}

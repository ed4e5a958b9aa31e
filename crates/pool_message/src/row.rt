//! Rows of queues.

use crate::message::PoolMessage;
use crate::optional::{give_back_if_any, keep_if_any};
use msg_core::Fields;
use slot_pool::Pool;

/// A row of a queue: its numbers, and the message that it may end with.
pub struct PoolRow {
    pub numbers: Fields,
    pub message: Option<PoolMessage>,
}

impl PoolRow {
    ghost use Rattle.std.specs.Prelude.{◌≡◌};
    ghost use Rattle.slot_pool.specs.References.{Covers};
    ghost use Rattle.pool_message.specs.Seen.{row_refs};
    ghost use Rattle.pool_message.specs.Moves.{CanKeep, Kept, Returned};

    /// A copy of this row. If it ends with a message, the two share its bytes, to which there is one more reference.
    pub fn keep(&self, pool: &mut Pool) -> PoolRow
        requires there { Covers pool.old (row_refs self.now) }
        requires room { CanKeep pool.old (row_refs self.now) }
        ensures same { result ≡ self.now }
        ensures kept { Kept pool.old pool.new (row_refs self.now) }
    {
        PoolRow {
            numbers: self.numbers.copy(),
            message: keep_if_any(&self.message, pool),
        }
    }

    /// Gives the reference of its message back.
    pub fn give_back(self, pool: &mut Pool)
        requires { Covers pool.old (row_refs self) }
        ensures { Returned pool.old pool.new (row_refs self) }
    {
        let PoolRow {
            numbers: _,
            message,
        } = self;
        give_back_if_any(message, pool);
    }
}

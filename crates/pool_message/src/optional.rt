//! Messages that may be none.

ghost use Rattle.std.specs.Prelude.{◌≡◌};
ghost use Rattle.slot_pool.specs.References.{Covers};
ghost use Rattle.pool_message.specs.Seen.{refs_if};
ghost use Rattle.pool_message.specs.Moves.{CanKeep, Kept, Returned};

use crate::message::PoolMessage;
use slot_pool::Pool;

/// A copy of a message, if there is one. The two share their bytes, to which there is one more reference.
pub fn keep_if_any(message: &Option<PoolMessage>, pool: &mut Pool) -> Option<PoolMessage>
    requires there { Covers pool.old (refs_if message.now) }
    requires room { CanKeep pool.old (refs_if message.now) }
    ensures same { result ≡ message.now }
    ensures kept { Kept pool.old pool.new (refs_if message.now) }
{
    match message {
        Some(message) => Some(message.keep(pool)),
        None => None,
    }
}

/// Gives the reference of a message back, if it is one.
pub fn give_back_if_any(message: Option<PoolMessage>, pool: &mut Pool)
    requires { Covers pool.old (refs_if message) }
    ensures { Returned pool.old pool.new (refs_if message) }
{
    if let Some(message) = message {
        message.give_back(pool);
    }
}

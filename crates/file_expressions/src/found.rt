//! Faults of types.

ghost use Rattle.std.specs.Prelude.{◌≡◌};
ghost use Rattle.fault_mean.specs.Earliest.{unless};
ghost use Rattle.file_expressions.specs.Found.{Finds, fault_at, type_shown};

use file_scope::{Fault, Found};
use layer_words::At;

/// What is wrong with a type.
#[derive(Clone, Copy, PartialEq, Eq, Debug)]
pub enum Cause {
    /// Something is of another kind than is needed.
    Kind,
    /// There is another number of arguments or names.
    Arity,
    /// A header stands where none may.
    Direction,
    /// A header doesn't suit the message.
    Header,
    /// An initial value isn't made of what it may be made of.
    Initial,
}

/// A fault of types as it is noted.
fn fault(cause: Cause, at: At) -> Fault
    ensures { result ≡ type_shown (fault_at cause at) }
{
    let rank = match cause {
        Cause::Kind => 0,
        Cause::Arity => 1,
        Cause::Direction => 2,
        Cause::Header => 3,
        Cause::Initial => 4,
    };
    Fault { at, rank }
}

/// Takes a fault into account, unless something holds.
#[tactic(auto, using(file_scope::proofs::Finds::finds_unless))]
pub fn note_unless(found: &mut Found, holds: bool, cause: Cause, at: At)
    ensures { Finds found.old (unless holds (fault_at cause at)) found.new }
{
    found.note_unless(holds, fault(cause, at));
}

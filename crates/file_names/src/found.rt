//! Faults of names.

ghost use Rattle.std.specs.Prelude.{◌≡◌, true, ◌∷◌, []};
ghost use Rattle.fault_mean.specs.Earliest.{unless};
ghost use Rattle.file_names.specs.Found.{Finds, fault_at, name_shown};

use file_scope::Fault;
pub use file_scope::Found;
use layer_words::At;

/// What is wrong with a name.
#[derive(Clone, Copy, PartialEq, Eq, Debug)]
pub enum Cause {
    /// It isn't declared, or not visible where it is used.
    Unknown,
    /// It is there already.
    Twice,
    /// It is one more than a limit allows.
    TooMany,
}

/// A fault of names as it is noted.
fn fault(cause: Cause, at: At) -> Fault
    ensures { result ≡ name_shown (fault_at cause at) }
{
    let rank = match cause {
        Cause::Unknown => 0,
        Cause::Twice => 1,
        Cause::TooMany => 2,
    };
    Fault { at, rank }
}

/// Takes a fault into account.
#[tactic(auto, unfolding(file_scope::specs::Found::FindsBy))]
pub fn note(found: &mut Found, cause: Cause, at: At)
    ensures { Finds found.old (fault_at cause at ∷ []) found.new }
{
    found.note(fault(cause, at));
}

/// Takes a fault into account, unless something holds.
#[tactic(auto, using(file_scope::proofs::Finds::finds_unless))]
pub fn note_unless(found: &mut Found, holds: bool, cause: Cause, at: At)
    ensures { Finds found.old (unless holds (fault_at cause at)) found.new }
{
    found.note_unless(holds, fault(cause, at));
}

/// Whether it is known that a fault changes nothing: it is found already, or one that comes before it.
#[tactic(auto, unfolding(file_scope::specs::Found::FindsBy))]
pub fn is_past(found: &Found, cause: Cause, at: At) -> bool
    ensures { result ≡ true → Finds found.now (fault_at cause at ∷ []) found.now }
{
    found.is_past(fault(cause, at))
}

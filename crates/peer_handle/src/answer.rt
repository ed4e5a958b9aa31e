//! What opening answers.

ghost use Rattle.std.specs.Prelude.{◌≡◌};
ghost use Rattle.peer_handle.specs.Opens.{opening_number};

/// How the opening of a member ended.
#[derive(Clone, Copy)]
pub enum Opening {
    /// The handle has the member.
    Opened,
    /// The handle has had one.
    HasOne,
    /// There may be no such group, or it has no such member.
    NoMember,
    /// The layer file is refused.
    Refused,
    /// Members of the group may keep more than 8,192 rows with messages.
    TooLarge,
    /// Memory ran out.
    NoMemory,
}

/// The number of an answer.
pub fn opening_number(opening: Opening) -> u32
    ensures { result ≡ opening_number opening }
{
    match opening {
        Opening::Opened => 0,
        Opening::HasOne => 1,
        Opening::NoMember => 2,
        Opening::Refused => 3,
        Opening::TooLarge => 4,
        Opening::NoMemory => 7,
    }
}

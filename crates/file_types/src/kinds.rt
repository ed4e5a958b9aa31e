//! What the kinds and directions of events ask for.

ghost use Rattle.std.specs.Prelude.{◌≡◌, ◌∷◌, length, map, option_to_list};
ghost use Rattle.layer_mean.specs.Event as event;
ghost use Rattle.fault_mean.specs.Kinds.{a_number, arguments_of};
ghost use Rattle.fault_mean.specs.TypeFaults as spec;
ghost use Rattle.file_expressions.specs.Wanted.{sorts_of};
ghost use Rattle.file_types.specs.Counts.{count_of};

use crate::count::Count;
use file_expressions::{NUMBER, Wanted};
use layer_words::{Dir, Kind, Sort};

/// Whether the events of a kind carry a message.
pub fn carries(kind: Kind) -> bool
    ensures { result ≡ event.carries kind }
{
    match kind {
        Kind::Cast | Kind::Send => true,
        _ => false,
    }
}

/// How many arguments events of a kind have.
pub fn argument_count(kind: Kind) -> Count
    ensures { count_of result ≡ length (arguments_of kind) }
{
    match kind {
        Kind::Cast | Kind::Send | Kind::Stable | Kind::Ack => Count::After(1),
        _ => Count::After(0),
    }
}

/// What is wanted after the first argument, which is a number.
pub fn second_wanted(kind: Kind) -> Option<Wanted>
    ensures { arguments_of kind ≡ a_number ∷ map sorts_of (option_to_list result) }
{
    match kind {
        Kind::Cast | Kind::Send => Some(Wanted::Message),
        Kind::Stable | Kind::Ack => Some(NUMBER),
        _ => None,
    }
}

/// Whether headers are put on in a direction.
pub fn pushes(dir: Dir) -> bool
    ensures { result ≡ spec.pushes dir }
{
    match dir {
        Dir::Down => true,
        Dir::Up => false,
    }
}

/// Whether a message of a sort may be sent in a direction, under a header that ends or passes.
pub fn suits(dir: Dir, ends: bool, sort: Sort) -> bool
    ensures { result ≡ spec.suits dir ends sort }
{
    match dir {
        Dir::Up => sort != Sort::Part,
        Dir::Down => {
            if ends {
                sort != Sort::Msg
            } else {
                sort != Sort::Part
            }
        }
    }
}

//! What may stand where something is wanted.

ghost use Rattle.std.specs.Prelude.{◌≡◌};
ghost use Rattle.fault_mean.specs.ExpressionFaults as spec;
ghost use Rattle.fault_mean.specs.Kinds as kinds;
ghost use Rattle.file_expressions.specs.Wanted.{sorts_of};

use layer_words::Sort;

/// What may stand where something is wanted.
#[derive(Clone, Copy, PartialEq, Eq, Debug)]
pub enum Wanted {
    /// This sort alone.
    One(Sort),
    /// A message, with the headers of the layers above or without.
    Message,
}

/// Where a number is wanted.
pub const NUMBER: Wanted = Wanted::One(Sort::Int);

/// Whether a sort may stand there.
pub fn allows(wanted: Wanted, sort: Sort) -> bool
    ensures { result ≡ kinds.allows (sorts_of wanted) sort }
{
    match wanted {
        Wanted::One(one) => sort == one,
        Wanted::Message => sort == Sort::Msg || sort == Sort::Part,
    }
}

/// Whether a sort may stand there, or isn't known.
pub fn may_be(wanted: Wanted, sort: Option<Sort>) -> bool
    ensures { result ≡ spec.may_be (sorts_of wanted) sort }
{
    match sort {
        None => true,
        Some(sort) => allows(wanted, sort),
    }
}

/// Whether a sort is known and may stand there.
pub fn must_be(wanted: Wanted, sort: Option<Sort>) -> bool
    ensures { result ≡ spec.must_be (sorts_of wanted) sort }
{
    match sort {
        None => false,
        Some(sort) => allows(wanted, sort),
    }
}

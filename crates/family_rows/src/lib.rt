//! A worked case: a script of a family that breaks a law.
#![tactic(auto)]

ghost use Rattle.family_rows.specs.Swapped.{IsBroken, IsInFamily, IsKept};

/// The script is one of the family.
pub fn is_of()
    ensures { IsInFamily }
{}

/// It breaks the law, and its beginning keeps it.
pub fn swapped()
    ensures { IsBroken × IsKept }
{}

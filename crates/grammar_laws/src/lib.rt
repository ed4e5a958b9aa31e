//! Laws of the syntax of layer files, each the contract of a function that does nothing: a text spells at most one
//! file, or stops being the beginning of one at one place, and what is printed of a layer fits before others.
//! Nothing runs here.
#![tactic(auto)]

ghost use Rattle.grammar_laws.specs.Once.{PrintedOnce, SpelledOnce};
ghost use Rattle.grammar_laws.specs.Stopped.{BadByteStops, EmptyStops};
ghost use Rattle.grammar_laws.specs.Verdict.{EachDecided};

/// A text spells at most one file, for given layers that the library brings.
pub fn spelled_once()
    ensures { SpelledOnce }
{}

/// Two files that are printed alike, with the same places, are one file, where the library brings
/// them the same layers.
pub fn printed_once()
    ensures { PrintedOnce }
{}

/// The empty text is unexpected at its end.
pub fn empty_stops()
    ensures { EmptyStops }
{}

/// A text whose first byte is bad has a bad token there.
pub fn bad_byte_stops()
    ensures { BadByteStops }
{}

/// A text spells a file, or it stops being the beginning of one at one place and for one cause.
pub fn each_decided()
    ensures { EachDecided }
{}

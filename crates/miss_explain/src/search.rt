//! The search for the line of a decision.

ghost use Rattle.std.specs.Prelude.{◌∷◌, []};
ghost use Rattle.miss_explain.specs.Search.{Passes};

use layer_words::At;

/// The search for a decision by its number among some, counted from 0.
#[derive(Clone, Copy, Debug, PartialEq, Eq)]
pub(crate) enum Search {
    /// This many decisions stand before it.
    Ahead(u32),
    /// It stands in this line.
    Found(u32),
}

/// Passes the decision that stands at a place in the text.
#[tactic(auto, unfolding(crate::specs::Search::Passes))]
pub(crate) fn pass(search: &mut Search, at: At)
    ensures { Passes search.old (at.line ∷ []) search.new }
{
    match *search {
        Search::Ahead(left) => {
            *search = if left == 0 {
                Search::Found(at.line)
            } else {
                Search::Ahead(left - 1)
            };
        }
        Search::Found(_) => {}
    }
}

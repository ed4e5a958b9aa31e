//! Laws of room, each the contract of a function that does nothing.

ghost use Rattle.desk_needs.specs.Laws.{NodesCoverNeeds, TypedLayersFit};

/// A typed layer fits the desk that is made for it, on every event: no part of its tree is a misfit, and the hand is
/// large enough.
pub fn typed_layers_fit()
    ensures { TypedLayersFit }
{}

/// Where no node of a stack lies on a cycle, the node of a known task has what its visit needs: slots that, together
/// with the join counts of what it sends, are within its join count, and places within its weight.
pub fn nodes_cover_needs()
    ensures { NodesCoverNeeds }
{}

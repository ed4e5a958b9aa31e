//! Laws of room, each the contract of a function that does nothing: the rows with messages that a member keeps are few,
//! and so there are slots enough in its pool.
#![tactic(auto)]

ghost use Rattle.std.specs.Prelude.{ℕ, ◌≤◌, List, length, map};
ghost use Rattle.std.specs.List.{flat_map, sum_by, AllByRecursion};
ghost use Rattle.slot_pool.specs.Held.{Held};
ghost use Rattle.layer_mean.specs.Tree.{LayerTree};
ghost use Rattle.stack_mean.specs.Acceptance.{rows_of};
ghost use Rattle.layer_stage.specs.Kept.{messages_kept};
ghost use Rattle.pool_laws.specs.Room.{AcceptedIsLight, IsPoolFor, NotFull, OwnPool, RoomAtFirst, RoomAfterPut};
ghost use Rattle.pool_laws.specs.Rows.{FreshAreWithin, RunsKeepCounts, RunsStayWithin, StatesKeepRows};
ghost use Rattle.pool_laws.specs.Views.{ViewsShrink};

use layer_stage::Stage;

/// The layers of a stack keep at most as many rows with messages as the stack says.
pub fn states_keep_rows()
    ensures { StatesKeepRows }
{}

/// A member stays one of a view of at most n members: as it comes into a view, and in each run.
pub fn states_stay_within()
    ensures fresh { FreshAreWithin }
    ensures run { RunsStayWithin }
    ensures same { RunsKeepCounts }
{}

/// A view after a view has no more members; so states that are made anew for it stay within what there is room for.
pub fn views_shrink()
    ensures { ViewsShrink }
{}

/// Stages have no more references than their states have rows with messages, so a pool that is theirs alone has as few
/// as it is made for.
pub fn stages_have_few_references<S: Stage>()
    ensures few { (p : List Held) (stages : List S) → AllByRecursion (S.ready p) stages →
        length (flat_map S.refs stages) ≤ sum_by messages_kept (map (S.state p) stages) }
    ensures pool { (stack : List LayerTree) (most : ℕ) (p : List Held) (stages : List S) →
        OwnPool S.refs S.state S.ready stack most p stages → IsPoolFor (rows_of stack most) p (flat_map S.refs stages) }
{}

/// A pool with enough slots beyond its references isn't full, and has room for a run, with the body of its event and
/// without.
pub fn pools_have_room()
    ensures not_full { NotFull }
    ensures first { RoomAtFirst }
    ensures put { RoomAfterPut }
{}

/// An accepted stack asks for no more slots than those.
pub fn law_accepted_is_light()
    ensures { AcceptedIsLight }
{}

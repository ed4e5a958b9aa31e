//! That runs of accepted stacks end, and how much they take: each law is the contract of a function that does nothing.
#![tactic(auto)]

pub mod samples;

ghost use Rattle.weight_laws.specs.Chains.{ChainedTasksAreKnown};
ghost use Rattle.weight_laws.specs.Costs.{CostsFollowArrows};
ghost use Rattle.weight_laws.specs.Rounds.{HeldIsJudged, LargestInRounds, RoundsAreCosts, RoundsSettle};
ghost use Rattle.weight_laws.specs.Runs.{JoinsAndPending, LinesEnd, RunsEnd, TurnsAndWeight, TurnsFit, TurnsJoinLess};
ghost use Rattle.weight_laws.specs.Runs.{TurnsLighten};
ghost use Rattle.weight_laws.specs.Search.{SearchSettles, SearchTellsCycles};
ghost use Rattle.weight_laws.specs.Tables.{NumbersDiffer, NumbersFit, TablesTell};
ghost use Rattle.weight_laws.specs.Turns.{KnownToTheEnd};
ghost use Rattle.weight_laws.specs.Visits.{CountsWhatItJoins, SendsFollowArrows, WeighsWhatItSends};

/// Where no node of an orderly stack lies on a cycle, a node costs its own and what its arrows cost.
pub fn costs_follow_arrows()
    ensures { CostsFollowArrows }
{}

/// However nodes are rated, what a visit sends adds up to no more than the arrows of its node allow.
pub fn sends_follow_arrows()
    ensures { SendsFollowArrows }
{}

/// The weight of a node is at least 1 and the weights of what its visit sends.
pub fn weighs_what_it_sends()
    ensures { WeighsWhatItSends }
{}

/// The join count of a node is at least the joins that its visit makes and the join counts of what it sends.
pub fn counts_what_it_joins()
    ensures { CountsWhatItJoins }
{}

/// A turn lowers the weight of the pending tasks.
pub fn turns_lighten()
    ensures { TurnsLighten }
{}

/// The joins that a turn makes are taken from the join counts of the pending tasks.
pub fn turns_join_less()
    ensures { TurnsJoinLess }
{}

/// A loop that has as much weight left and as many free slots as its tasks need has room for one turn, and enough is
/// left for the rest.
pub fn turns_fit()
    ensures { TurnsFit }
{}

/// The turns taken and the pending weight together are no more than before.
pub fn turns_and_weight()
    ensures { TurnsAndWeight }
{}

/// The joins made and the pending joins together are no more than the joins pending before.
pub fn joins_and_pending()
    ensures { JoinsAndPending }
{}

/// A line reaches its end in as many turns as its weight, and more turns change nothing.
pub fn lines_end()
    ensures { LinesEnd }
{}

/// A run of an accepted stack from an entry ends within the entry's weight and join count, and these are within the
/// limits.
pub fn runs_end()
    ensures { RunsEnd }
{}

/// A task whose message is chained for its place is known.
pub fn chained_tasks_are_known()
    ensures { ChainedTasksAreKnown }
{}

/// A line that is known turn by turn until no task is left is known throughout.
pub fn known_to_the_end()
    ensures { KnownToTheEnd }
{}

/// Nodes of a stack whose layers have at most seven headers have numbers below 192 for each place and edge.
pub fn numbers_fit()
    ensures { NumbersFit }
{}

/// Different nodes of such a stack have different numbers.
pub fn numbers_differ()
    ensures { NumbersDiffer }
{}

/// Costs in rounds over a table are those of the definition in as many steps, held within 32 bits.
pub fn rounds_are_costs()
    ensures { RoundsAreCosts }
{}

/// A stack's weight and its joins stand in the tables after as many rounds as it has nodes.
pub fn largest_in_rounds()
    ensures { LargestInRounds }
{}

/// A number passes a limit below 2^32 - 1 exactly where the held number passes it.
pub fn held_is_judged()
    ensures { HeldIsJudged }
{}

/// Once a round changes nothing, no further one does.
pub fn rounds_settle()
    ensures { RoundsSettle }
{}

/// A table that is made node by node has the vertex of each node at its number.
pub fn tables_tell()
    ensures { TablesTell }
{}

/// A search from a node, in as many rounds as there are nodes, sees the node itself exactly where it lies on a cycle.
pub fn search_tells_cycles()
    ensures { SearchTellsCycles }
{}

/// Once a round of a search saw nothing, no further one does.
pub fn search_settles()
    ensures { SearchSettles }
{}

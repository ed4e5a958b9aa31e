//! Laws of what visits need, each the contract of a function that does nothing.

ghost use Rattle.std.specs.Prelude.{◌≡◌, ℕ, ◌*◌};
ghost use Rattle.std.specs.List.{sum_by};
ghost use Rattle.layer_mean.specs.Tree.{StatementTree, StatementTrees};
ghost use Rattle.stack_mean.specs.Emissions.{emissions, emissions_in};
ghost use Rattle.layer_desk.specs.Need.{sends_at_most, block_sends};

/// Statements need as many places as they have emissions, each counted as often as it is done at most.
pub fn places_are_of_emissions()
    ensures statement { (times : ℕ) (x : StatementTree) → sum_by (λ e. e.times) (emissions times x) ≡
        times * sends_at_most x }
    ensures block { (times : ℕ) (b : StatementTrees) → sum_by (λ e. e.times) (emissions_in times b) ≡
        times * block_sends b }
{}

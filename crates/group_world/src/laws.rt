//! Laws of steps.

ghost use Rattle.std.specs.Prelude.{ℕ, ◌≤◌, List};
ghost use Rattle.layer_mean.specs.Queue.{Task, run};
ghost use Rattle.layer_mean.specs.State.{State};
ghost use Rattle.layer_mean.specs.Tree.{LayerTree};
ghost use Rattle.layer_mean.specs.declared.run.Event.{Event};

/// A run has no more visits than turns.
pub fn visits_are_few()
    ensures { (most : ℕ) (stack : List LayerTree) (states : List State) (first : Task Event) →
        (run most stack states first).world.visits ≤ most }
{}

//! Which events of a script may change places.
#![tactic(auto)]

ghost use Rattle.std.specs.Prelude.{◌≡◌, List};
ghost use Rattle.layer_mean.specs.Tree.{LayerTree};
ghost use Rattle.run_mean.specs.World.{World};
ghost use Rattle.script_mean.specs.Event.{member_of};
ghost use Rattle.script_mean.specs.declared.event.ScriptEvent.{ScriptEvent};
ghost use Rattle.stack_mean.specs.Plan.{Plan};
ghost use Rattle.swap_laws.specs.Swaps.{CanSwap, IsKnown};

/// Two events of different members may change places, where neither gives what the other sent.
pub fn events_swap()
    ensures { (stack : List LayerTree) (plans : List Plan) (w : World) (e e' : ScriptEvent) →
        (member_of e ≡ member_of e' → ⊥) → IsKnown w e → IsKnown w e' → CanSwap stack plans w e e' }
{}

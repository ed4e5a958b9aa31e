//! Laws of room and of events that pass, each the contract of a function that does nothing.

ghost use Rattle.std.specs.Prelude.{◌≡◌, ℕ, true, List, [], ◌∷◌};
ghost use Rattle.slot_pool.specs.Held.{Held};
ghost use Rattle.layer_words.specs.declared.events.Dir.{Dir};
ghost use Rattle.layer_mean.specs.declared.run.Event.{Event};
ghost use Rattle.layer_mean.specs.Tree.{LayerTree};
ghost use Rattle.layer_mean.specs.State.{State};
ghost use Rattle.layer_mean.specs.Visit.{met, step};
ghost use Rattle.layer_desk.specs.Need.{Layout, visit_need};
ghost use Rattle.pool_message.specs.Seen.{event_seen};
ghost use Rattle.pool_message.specs.declared.event.PoolEvent.{PoolEvent};
ghost use Rattle.layer_stage.specs.Passes.{is_passed, passed_by};
ghost use Rattle.layer_stage.specs.Room.{handler_of, slots_needed, places_needed, headers_met};

/// What a visit needs at a desk, whatever the desk is made for, is what a stage asks for.
pub fn needs_are_those_at_a_desk()
    ensures slots { (layout : Layout) (layer : LayerTree) (dir : Dir) (event : Event) →
        (visit_need layout (handler_of layer dir event) (met dir event.message)).slots ≡ slots_needed layer dir event }
    ensures places { (layout : Layout) (layer : LayerTree) (dir : Dir) (event : Event) →
        (visit_need layout (handler_of layer dir event) (met dir event.message)).places ≡
        places_needed layer dir event }
    ensures headers { (layout : Layout) (layer : LayerTree) (dir : Dir) (event : Event) →
        (visit_need layout (handler_of layer dir event) (met dir event.message)).headers ≡ headers_met dir event }
{}

/// A visit by an event that passes a layer sends it on, and neither changes the state nor decides.
pub fn events_that_pass_are_sent_on()
    ensures { (place : ℕ) (layer : LayerTree) (s : State) (p : List Held) (dir : Dir) (event : PoolEvent) →
        is_passed layer dir (event_seen p event) ≡ true →
        step place layer s dir (event_seen p event) ≡
        record { state = s; sent = (dir, event_seen p (passed_by place dir event)) ∷ []; decided = [] } }
{}

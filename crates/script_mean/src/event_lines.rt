//! The lines of events.
ghost use Rattle.std.specs.Prelude.{◌≡◌, [], ◌∷◌, codes};
ghost use Rattle.script_mean.specs.EventText.{event_text, ReadsBack};
ghost use Rattle.script_mean.specs.declared.event.ScriptEvent.TheVariants.{Cast, Send, Leave, Tick, Give, Raw, Show};

/// The line of an event of each kind.
pub fn say_events()
    ensures cast { event_text (Cast 0 (104 ∷ 105 ∷ [])) ≡ codes "cast 0 6869" }
    ensures cast_nothing { event_text (Cast 31 []) ≡ codes "cast 31 -" }
    ensures send { event_text (Send 8 31 (0 ∷ 255 ∷ [])) ≡ codes "send 8 31 00ff" }
    ensures leave { event_text (Leave 1) ≡ codes "leave 1" }
    ensures tick { event_text (Tick 2 4294967295) ≡ codes "tick 2 4294967295" }
    ensures give { event_text (Give 10 3) ≡ codes "give 10 3" }
    ensures raw { event_text (Raw 4 (160 ∷ [])) ≡ codes "raw 4 a0" }
    ensures state { event_text (Show 5) ≡ codes "state 5" }
{}

/// The line of an event says this very event, if a line can say it.
pub fn events_read_back()
    ensures { ReadsBack }
{}

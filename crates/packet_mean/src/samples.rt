//! Small packets and datagrams, worked out by evaluation. Nothing runs here.
ghost use Rattle.std.specs.Prelude.{◌≡◌, ℕ, true, false, List, [], ◌∷◌, ◌++◌, map, replicate, codes, Some, None, Ok};
ghost use Rattle.layer_words.specs.declared.events.Kind.TheVariants.{Cast, Send};
ghost use Rattle.msg_core.specs.declared.packet.Stray.TheVariants as cause;
ghost use Rattle.packet_mean.specs.Chained.{IsChained};
ghost use Rattle.packet_mean.specs.Plan.{fits, least_fit};
ghost use Rattle.packet_mean.specs.Received.{received, stray};
ghost use Rattle.packet_mean.specs.Samples.{ordering_stack, ordered_cast, ordered_plan, ordered_request, counter};
ghost use Rattle.packet_mean.specs.Samples.{counter_cast, counter_plans, counter_stray, second, small, front};
ghost use Rattle.packet_mean.specs.Spelling.{full_bytes, short_bytes};

/// The messages of the samples are chained from the lowest place.
pub fn chained()
    ensures cast { IsChained ordering_stack 0 ordered_cast.message }
    ensures request { IsChained ordering_stack 0 ordered_request.message }
    ensures count { IsChained counter 0 counter_cast.message }
{}

/// A cast of four layers in 40 bytes, and in 33 under its plan: one constant is left out, and the tags are.
pub fn spell_ordered()
    ensures full { full_bytes ordered_cast ≡
        (0xE5 ∷ 0 ∷ 0 ∷ 0 ∷ 1 ∷ 0 ∷ 0 ∷ 0 ∷ 1 ∷ 0 ∷ 0 ∷ 0 ∷ 0 ∷ 0 ∷ 0 ∷ 0 ∷ 3 ∷ 0 ∷ 0xFF ∷ 1 ∷ 0 ∷ 0 ∷ 0 ∷ 1 ∷ 1 ∷ 0 ∷
        0 ∷ 0 ∷ 0 ∷ 0 ∷ 1 ∷ 0 ∷ 0 ∷ 0 ∷ 0 ∷ 0 ∷ 0 ∷ 0 ∷ 0 ∷ 0x61 ∷ []) }
    ensures short { short_bytes 0 ordered_plan ordered_cast ≡
        (0xE6 ∷ 0 ∷ 0 ∷ 0 ∷ 1 ∷ 0 ∷ 0 ∷ 0 ∷ 1 ∷ 0 ∷ 0 ∷ 0 ∷ 0 ∷ 0 ∷ 0 ∷ 0 ∷ 3 ∷ 0 ∷ 0xFF ∷ 0 ∷ 0 ∷ 0 ∷ 0 ∷ 0 ∷ 0 ∷ 0 ∷
        0 ∷ 0 ∷ 0 ∷ 0 ∷ 0 ∷ 0 ∷ 0x61 ∷ []) }
{}

/// A cast of one layer has 26 bytes in both forms.
pub fn spell_counter()
    ensures full { full_bytes counter_cast ≡
        (0xE5 ∷ 0 ∷ 0 ∷ 0 ∷ 1 ∷ 0 ∷ 0 ∷ 0 ∷ 7 ∷ 0 ∷ 0 ∷ 0 ∷ 0 ∷ 0 ∷ 0 ∷ 0 ∷ 7 ∷ 0 ∷ 0xFF ∷ 1 ∷ 0 ∷ 0 ∷ 0 ∷ 0 ∷ 0x68 ∷
        0x69 ∷ []) }
    ensures short { short_bytes 0 (record { kind = Cast; tags = 1 ∷ []; fields = None ∷ [] }) counter_cast ≡
        (0xE6 ∷ 0 ∷ 0 ∷ 0 ∷ 1 ∷ 0 ∷ 0 ∷ 0 ∷ 7 ∷ 0 ∷ 0 ∷ 0 ∷ 0 ∷ 0 ∷ 0 ∷ 0 ∷ 7 ∷ 0 ∷ 0xFF ∷ 0 ∷ 0 ∷ 0 ∷ 0 ∷ 0 ∷ 0x68 ∷
        0x69 ∷ []) }
{}

/// The packets are read again, in both forms; a header that ends the chain has none after it.
pub fn read_samples()
    ensures ordered_full { received ordering_stack [] (second 1 3) (full_bytes ordered_cast) ≡ Ok ordered_cast }
    ensures ordered_short { received ordering_stack (ordered_plan ∷ []) (second 1 3)
        (short_bytes 0 ordered_plan ordered_cast) ≡ Ok ordered_cast }
    ensures request { received ordering_stack [] (second 1 3) (full_bytes ordered_request) ≡ Ok ordered_request }
    ensures counter_full { received counter counter_plans (second 7 7) (full_bytes counter_cast) ≡ Ok counter_cast }
    ensures counter_short { received counter counter_plans (second 7 7) (front 0xE6 1 7 0 7 0 0xFF
        ++ 0 ∷ small 0 ++ codes "hi") ≡ Ok counter_cast }
{}

/// A packet fits a plan of its kind, tags and constants alone.
pub fn fit_plans()
    ensures fits { fits ordered_plan ordered_cast ≡ true }
    ensures least { least_fit (counter_plans ++ ordered_plan ∷ ordered_plan ∷ []) ordered_cast ≡ Some 2 }
    ensures none { least_fit counter_plans ordered_cast ≡ None }
    ensures kind { fits (record ordered_plan { kind = Send }) ordered_cast ≡ false }
    ensures tags { fits (record ordered_plan { tags = 1 ∷ 1 ∷ 0 ∷ 2 ∷ [] }) ordered_cast ≡ false }
    ensures constant { fits (record ordered_plan { fields = Some 2 ∷ None ∷ None ∷ None ∷ [] }) ordered_cast ≡ false }
    ensures count { fits (record ordered_plan { fields = Some 1 ∷ None ∷ None ∷ [] }) ordered_cast ≡ false }
{}

/// Datagrams that each cause refuses; where two causes hold, the first one does.
pub fn find_causes()
    ensures short { counter_stray (replicate 18 0) ≡ Some cause.Short }
    ensures form { counter_stray (0xE4 ∷ replicate 18 0) ≡ Some cause.Form }
    ensures group { counter_stray (front 0xE5 2 8 0 7 0 0xFF) ≡ Some cause.Group }
    ensures stamp { counter_stray (front 0xE5 1 8 1 7 0 0xFF) ≡ Some cause.Stamp }
    ensures ltime { counter_stray (front 0xE5 1 7 1 7 1 0xFF) ≡ Some cause.View }
    ensures mask { counter_stray (front 0xE6 1 7 0 3 0 0xFF ++ 0 ∷ 0 ∷ 0 ∷ []) ≡ Some cause.View }
    ensures no_rank { counter_stray (front 0xE5 1 7 0 7 3 2) ≡ Some cause.Sender }
    ensures own_rank { counter_stray (front 0xE5 1 7 0 7 1 0xFF) ≡ Some cause.Sender }
    ensures dest { counter_stray (front 0xE6 1 7 0 7 0 2) ≡ Some cause.Dest }
    ensures no_plan { counter_stray (front 0xE6 1 7 0 7 0 0xFF) ≡ Some cause.Plan }
    ensures unknown_plan { counter_stray (front 0xE6 1 7 0 7 0 0xFF ++ 0xFA ∷ []) ≡ Some cause.Plan }
    ensures other_kind { counter_stray (front 0xE6 1 7 0 7 0 1 ++ 0 ∷ small 0) ≡ Some cause.Plan }
    ensures no_tag { counter_stray (front 0xE5 1 7 0 7 0 0xFF) ≡ Some cause.Chain }
    ensures unknown_tag { counter_stray (front 0xE5 1 7 0 7 0 0xFF ++ 2 ∷ small 0) ≡ Some cause.Chain }
    ensures cut_off { counter_stray (front 0xE6 1 7 0 7 0 0xFF ++ 0 ∷ 0 ∷ 0 ∷ []) ≡ Some cause.Chain }
    ensures long_body { counter_stray (front 0xE5 1 7 0 7 0 0xFF ++ 0 ∷ replicate 8193 0) ≡ Some cause.Body }
    ensures longest_body { counter_stray (front 0xE5 1 7 0 7 0 0xFF ++ 0 ∷ replicate 8192 0) ≡ None }
{}

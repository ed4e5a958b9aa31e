//! Small scripts that are made from a number, as texts. They were worked out by another program.
ghost use Rattle.std.specs.Prelude.{◌≡◌, [], ◌∷◌, map, drop, ◌++◌, codes, true, false, Ok};
ghost use Rattle.script_mean.specs.Script.{script_of};
ghost use Rattle.script_mean.specs.EventText.{event_text};
ghost use Rattle.script_mean.specs.Generate.{a_draw, generate, next_seed};

/// The first draws from the seed 0, and what they make.
pub fn first_draws()
    ensures first { (a_draw 65536 0).0 ≡ 15470 }
    ensures second { (a_draw 65536 (next_seed 0)).0 ≡ 18256 }
    ensures third { (a_draw 65536 (next_seed (next_seed 0))).0 ≡ 53708 }
    ensures one_event { script_of (codes "group 1 stamp 1 members 1\ngive 1 0\n") ≡ Ok (generate 0 1 1 false) }
    ensures no_events { script_of (codes "group 1 stamp 1 members 32\n") ≡ Ok (generate 4294967295 0 32 false) }
{}

/// Twenty events of five members, from the seed 7, as their lines: of each kind, and packets given in
/// each of the four ways.
pub fn twenty_events()
    ensures { map event_text (generate 7 20 5 false).events ≡
        codes "cast 1 000102030405060708090a0b" ∷
        codes "give 1 3" ∷
        codes "give 1 0" ∷
        codes "tick 3 0" ∷
        (codes "cast 2 0405060708090a0b0c0d0e0f101112131415161718191a1b1c1d1e1f202122232425262728292a2b2c2d2e2f30313233"
        ++ codes "3435363738393a3b3c3d3e3f404142") ∷
        codes "tick 3 0" ∷
        codes "cast 4 060708090a0b0c0d0e0f101112131415161718191a1b1c1d1e1f2021222324" ∷
        codes "give 1 4" ∷
        codes "give 2 0" ∷
        codes "give 1 1" ∷
        codes "give 1 4" ∷
        codes "give 2 2" ∷
        codes "give 3 0" ∷
        codes "give 2 4" ∷
        codes "give 4 2" ∷
        (codes "cast 0 0f101112131415161718191a1b1c1d1e1f202122232425262728292a2b2c2d2e2f303132333435363738393a3b3c3d3e"
        ++ codes "3f404142434445464748494a4b4c4d") ∷
        codes "give 6 2" ∷
        codes "cast 1 1112131415161718191a1b1c1d1e1f202122232425262728292a" ∷
        codes "send 1 4 12131415161718191a1b1c1d1e1f202122232425262728292a2b2c2d2e2f3031323334353637" ∷
        codes "give 3 4" ∷ [] }
{}

/// Datagrams in generated scripts: short and full forms, and one that is cut short.
pub fn datagrams()
    ensures short_form { map event_text (generate 12 1 1 true).events ≡
        (codes "raw 0 e60000000100000001000000000000000100ff02030103000203020201020303030201030301030100000001030002030"
        ++ codes "30200020102030201010003000203000302020300020002") ∷ [] }
    ensures full_form { map event_text (generate 2 3 3 true).events ≡ (codes "cast 0 "
        ++ codes "000102030405060708090a0b0c0d0e0f101112131415161718191a1b1c1d1e") ∷ codes "give 2 0" ∷
        codes "raw 1 e50000000100000001000000000000000701ff00030301" ∷ [] }
    ensures cut_short { map event_text (drop 10 (generate 7 11 5 true).events) ≡
        codes "raw 4 e60000000100000001000000000000001f" ∷ [] }
{}

//! Small texts, and what they spell by the definitions.
ghost use Rattle.std.specs.Prelude.{◌≡◌, [], ◌∷◌, ◌++◌, codes, Ok, Err};
ghost use Rattle.script_mean.specs.Script.{script_of, bad_line, no_member};
ghost use Rattle.script_mean.specs.declared.event.ScriptEvent.TheVariants.{Cast, Send, Leave, Tick, Give, Raw, Show};

/// These texts spell these scripts.
pub fn spell_scripts()
    ensures three_lines { script_of (codes "group 1 stamp 7 members 3\ncast 0 6869\ngive 1 2\n") ≡
        Ok (record { group = 1; stamp = 7; members = 3; events = Cast 0 (104 ∷ 105 ∷ []) ∷ Give 1 2 ∷ [] }) }
    ensures no_events { script_of (codes "# no events\n\ngroup 4294967295 stamp 0 members 32") ≡
        Ok (record { group = 4294967295; stamp = 0; members = 32; events = [] }) }
    ensures other_events { script_of (codes "group 1 stamp 1 members 9\nsend 8 31 00ff\nleave 1\ntick 2 4294967295\n"
        ++ codes "raw 4 -\nstate 5") ≡ Ok (record {
          group = 1;
          stamp = 1;
          members = 9;
          events = Send 8 31 (0 ∷ 255 ∷
              []) ∷ Leave 1 ∷ Tick 2 4294967295 ∷ Raw 4 [] ∷ Show 5 ∷ [];
        }) }
{}

/// These texts spell none, and have these first faults.
pub fn find_faults()
    ensures empty { script_of [] ≡ Err (bad_line 1) }
    ensures comments_alone { script_of (codes "# none\n\n") ≡ Err (bad_line 1) }
    ensures no_members { script_of (codes "\ngroup 1 stamp 7 members 0\n") ≡ Err (bad_line 2) }
    ensures leading_zero { script_of (codes "group 1 stamp 7 members 03\n") ≡ Err (bad_line 1) }
    ensures too_large { script_of (codes "group 1 stamp 4294967296 members 3\n") ≡ Err (bad_line 1) }
    ensures second_group { script_of (codes "group 1 stamp 7 members 3\nleave 0\ngroup 1 stamp 7 members 3\n") ≡
        Err (bad_line 3) }
    ensures two_spaces { script_of (codes "group 1 stamp 7 members 3\nleave  0\n") ≡ Err (bad_line 2) }
    ensures one_space { script_of (codes "group 1 stamp 7 members 3\n \n") ≡ Err (bad_line 2) }
    ensures carriage_return { script_of (codes "group 1 stamp 7 members 3\nleave 0\r\n") ≡ Err (bad_line 2) }
    ensures odd_digits { script_of (codes "group 1 stamp 7 members 3\ncast 0 6\nleave 3\n") ≡ Err (bad_line 2) }
    ensures upper_case { script_of (codes "group 1 stamp 7 members 3\ncast 0 6A\n") ≡ Err (bad_line 2) }
    ensures rank { script_of (codes "group 1 stamp 7 members 3\nsend 0 32 61\n") ≡ Err (bad_line 2) }
    ensures member { script_of (codes "group 1 stamp 7 members 3\ncast 3 61\nleave\n") ≡ Err (no_member 2) }
    ensures largest_member { script_of (codes "group 1 stamp 7 members 3\n# three\n\nleave 4294967295\n") ≡
        Err (no_member 4) }
    ensures tab { script_of (codes "group 1 stamp 7 members 3\ngive\t1 0\n") ≡ Err (bad_line 2) }
    ensures comment_after { script_of (codes "group 1 stamp 7 members 3\nstate 0 # shown\n") ≡ Err (bad_line 2) }
    ensures no_body { script_of (codes "group 1 stamp 7 members 3\nraw 0\n") ≡ Err (bad_line 2) }
    ensures form_before_member { script_of (codes "group 1 stamp 7 members 3\ncast 40 6\n") ≡ Err (bad_line 2) }
{}

//! Small texts, and which plan of a node they spell by the definitions.
ghost use Rattle.std.specs.Prelude.{◌≡◌, [], ◌∷◌, ◌++◌, codes, Ok, Err};
ghost use Rattle.script_mean.specs.Script.{bad_line, no_member};
ghost use Rattle.script_mean.specs.NodePlan.{node_plan};
ghost use Rattle.script_mean.specs.declared.event.ScriptEvent.TheVariants.{Cast, Send, Leave};

/// These texts spell these plans.
pub fn spell_plans()
    ensures two_members { node_plan (codes "# two members\n\ngroup 1 stamp 7 members 2\npeer 0 127.0.0.1:4000\n\n"
        ++ codes "peer 1 0.255.10.200:65535\nturn 3 cast 0 6869\nturn 3 leave 1\n# the last\nturn 40 send 1 31 -") ≡
        Ok (record {
          group = 1;
          stamp = 7;
          peers = record { ip = 127 ∷ 0 ∷ 0 ∷ 1 ∷ []; port = 4000 } ∷
              record { ip = 0 ∷ 255 ∷ 10 ∷ 200 ∷ []; port = 65535 } ∷ [];
          turns = (3, Cast 0 (104 ∷ 105 ∷ [])) ∷ (3, Leave 1) ∷ (40, Send 1 31 []) ∷ [];
        }) }
    ensures no_turns { node_plan (codes "group 1 stamp 7 members 1\npeer 0 1.2.3.4:0\n") ≡
        Ok (record { group = 1; stamp = 7; peers = record { ip = 1 ∷ 2 ∷ 3 ∷ 4 ∷ []; port = 0 } ∷ []; turns = [] }) }
{}

/// These texts spell none, and have these first faults.
pub fn find_plan_faults()
    ensures empty { node_plan [] ≡ Err (bad_line 1) }
    ensures no_members { node_plan (codes "group 1 stamp 7 members 0\n") ≡ Err (bad_line 1) }
    ensures no_peer { node_plan (codes "group 1 stamp 7 members 2\npeer 0 127.0.0.1:4000\n# the end\n") ≡
        Err (bad_line 4) }
    ensures no_peer_at_all { node_plan (codes "group 1 stamp 7 members 2") ≡ Err (bad_line 2) }
    ensures bad_before_missing { node_plan (codes "group 1 stamp 7 members 3\npeer 1 127.0.0.1:4000\n") ≡
        Err (bad_line 2) }
    ensures turn_for_peer { node_plan (codes "group 1 stamp 7 members 2\npeer 0 127.0.0.1:4000\nturn 1 leave 0\n"
        ++ codes "peer 1 127.0.0.1:4001\n") ≡ Err (bad_line 3) }
    ensures peer_for_turn { node_plan (codes "group 1 stamp 7 members 1\npeer 0 127.0.0.1:4000\n"
        ++ codes "peer 1 127.0.0.1:4001\n") ≡ Err (bad_line 3) }
    ensures octet { node_plan (codes "group 1 stamp 7 members 1\npeer 0 127.0.0.256:4000\n") ≡ Err (bad_line 2) }
    ensures leading_zero { node_plan (codes "group 1 stamp 7 members 1\npeer 0 127.0.0.01:4000\n") ≡ Err (bad_line 2) }
    ensures three_octets { node_plan (codes "group 1 stamp 7 members 1\npeer 0 127.0.1:4000\n") ≡ Err (bad_line 2) }
    ensures port { node_plan (codes "group 1 stamp 7 members 1\npeer 0 127.0.0.1:65536\n") ≡ Err (bad_line 2) }
    ensures no_port { node_plan (codes "group 1 stamp 7 members 1\npeer 0 127.0.0.1\n") ≡ Err (bad_line 2) }
    ensures falls { node_plan (codes "group 1 stamp 7 members 1\npeer 0 127.0.0.1:4000\nturn 2 leave 0\n"
        ++ codes "turn 1 leave 7\n") ≡ Err (bad_line 4) }
    ensures tick { node_plan (codes "group 1 stamp 7 members 1\npeer 0 127.0.0.1:4000\nturn 2 tick 0 1\n") ≡
        Err (bad_line 3) }
    ensures member { node_plan (codes "group 1 stamp 7 members 1\npeer 0 127.0.0.1:4000\nturn 2 leave 1\nturn 1\n") ≡
        Err (no_member 3) }
{}

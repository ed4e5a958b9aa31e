//! Words of the command line that name no job.
ghost use Rattle.std.specs.Prelude.{◌≡◌, [], ◌∷◌, None, codes};
ghost use Rattle.job_mean.specs.Job.{job_of_words};

/// Words that the one command doesn't take.
pub fn refuse_by_clap()
    ensures no_words { job_of_words [] ≡ None }
    ensures no_file { job_of_words (codes "check" ∷ []) ≡ None }
    ensures fourth_word { job_of_words (codes "replay" ∷ codes "a" ∷ codes "b" ∷ codes "c" ∷ []) ≡ None }
    ensures option_twice { job_of_words (codes "replay" ∷ codes "a" ∷ codes "b" ∷ codes "--run=layered" ∷
        codes "--run=layered" ∷ []) ≡
        None }
    ensures traces_twice { job_of_words (codes "replay" ∷ codes "a" ∷ codes "b" ∷ codes "--with=t" ∷ codes "--with=t" ∷
        []) ≡ None }
    ensures flag_twice { job_of_words (codes "replay" ∷ codes "a" ∷ codes "b" ∷ codes "--wire" ∷ codes "--wire" ∷ []) ≡
        None }
    ensures events_twice { job_of_words (codes "replay" ∷ codes "a" ∷ codes "b" ∷ codes "--events" ∷ codes "--events" ∷
        []) ≡ None }
    ensures events_with_a_value { job_of_words (codes "replay" ∷ codes "a" ∷ codes "b" ∷ codes "--events=1" ∷ []) ≡
        None }
    ensures raw_twice { job_of_words (codes "load" ∷ codes "a" ∷ codes "--seed=1" ∷ codes "--events=1" ∷
        codes "--members=1" ∷ codes "--raw" ∷ codes "--raw" ∷ []) ≡ None }
    ensures flag_with_a_value { job_of_words (codes "replay" ∷ codes "a" ∷ codes "b" ∷ codes "--wire=true" ∷ []) ≡
        None }
    ensures short { job_of_words (codes "replay" ∷ codes "a" ∷ codes "b" ∷ codes "-w" ∷ []) ≡ None }
    ensures unknown { job_of_words (codes "check" ∷ codes "a" ∷ codes "--fast" ∷ []) ≡ None }
    ensures help { job_of_words (codes "check" ∷ codes "a" ∷ codes "--help" ∷ []) ≡ None }
    ensures short_help { job_of_words (codes "check" ∷ codes "a" ∷ codes "-h" ∷ []) ≡ None }
    ensures version { job_of_words (codes "check" ∷ codes "a" ∷ codes "--version" ∷ []) ≡ None }
    ensures no_value { job_of_words (codes "replay" ∷ codes "a" ∷ codes "b" ∷ codes "--run" ∷ []) ≡ None }
    ensures option_for_a_value { job_of_words (codes "replay" ∷ codes "a" ∷ codes "b" ∷ codes "--run" ∷ codes "--wire" ∷
        []) ≡ None }
    ensures negative_value { job_of_words (codes "load" ∷ codes "a" ∷ codes "--seed" ∷ codes "-1" ∷ codes "--events=1" ∷
        codes "--members=1" ∷ []) ≡ None }
    ensures end_for_a_value { job_of_words (codes "replay" ∷ codes "a" ∷ codes "--run" ∷ codes "--" ∷ codes "layered" ∷
        codes "b" ∷ []) ≡
        None }
{}

/// Words that the one command takes, and no job.
pub fn refuse_by_job()
    ensures no_job { job_of_words (codes "run" ∷ codes "a" ∷ []) ≡ None }
    ensures help_for_a_job { job_of_words (codes "help" ∷ codes "check" ∷ []) ≡ None }
    ensures script_for_check { job_of_words (codes "check" ∷ codes "a" ∷ codes "b" ∷ []) ≡ None }
    ensures mode_for_check { job_of_words (codes "check" ∷ codes "a" ∷ codes "--run=layered" ∷ []) ≡ None }
    ensures script_for_pack { job_of_words (codes "pack" ∷ codes "a" ∷ codes "b" ∷ []) ≡ None }
    ensures count_for_synth { job_of_words (codes "synth" ∷ codes "a" ∷ codes "--count" ∷ []) ≡ None }
    ensures no_script { job_of_words (codes "replay" ∷ codes "a" ∷ []) ≡ None }
    ensures nothing_to_explain { job_of_words (codes "explain" ∷ codes "a" ∷ []) ≡ None }
    ensures mode_for_explain { job_of_words (codes "explain" ∷ codes "a" ∷ codes "b" ∷ codes "--run=bypass" ∷ []) ≡
        None }
    ensures another_mode { job_of_words (codes "replay" ∷ codes "a" ∷ codes "b" ∷ codes "--run=Layered" ∷ []) ≡ None }
    ensures traces_for_layers { job_of_words (codes "replay" ∷ codes "a" ∷ codes "b" ∷ codes "--run=layered" ∷
        codes "--with=t" ∷ []) ≡ None }
    ensures traces_for_explain { job_of_words (codes "explain" ∷ codes "a" ∷ codes "b" ∷ codes "--with=t" ∷ []) ≡ None }
    ensures traces_for_load { job_of_words (codes "load" ∷ codes "a" ∷ codes "--seed=1" ∷ codes "--events=1" ∷
        codes "--members=1" ∷
        codes "--with=t" ∷ []) ≡ None }
    ensures traces_for_node { job_of_words (codes "node" ∷ codes "a" ∷ codes "b" ∷ codes "--turns=1" ∷ codes "--me=0" ∷
        codes "--with=t" ∷
        []) ≡ None }
    ensures events_for_explain { job_of_words (codes "explain" ∷ codes "a" ∷ codes "b" ∷ codes "--events" ∷ []) ≡ None }
    ensures number_of_events_for_replay { job_of_words (codes "replay" ∷ codes "a" ∷ codes "b" ∷ codes "--events" ∷
        codes "1" ∷ []) ≡ None }
    ensures events_without_a_number { job_of_words (codes "load" ∷ codes "a" ∷ codes "--seed=1" ∷ codes "--members=1" ∷
        codes "--events" ∷ []) ≡ None }
    ensures seed_for_replay { job_of_words (codes "replay" ∷ codes "a" ∷ codes "b" ∷ codes "--seed=1" ∷ []) ≡ None }
    ensures script_for_load { job_of_words (codes "load" ∷ codes "a" ∷ codes "b" ∷ codes "--seed=1" ∷
        codes "--events=1" ∷
        codes "--members=1" ∷ []) ≡ None }
    ensures no_seed { job_of_words (codes "load" ∷ codes "a" ∷ codes "--events=1" ∷ codes "--members=1" ∷ []) ≡ None }
    ensures raw_for_replay { job_of_words (codes "replay" ∷ codes "a" ∷ codes "b" ∷ codes "--raw" ∷ []) ≡ None }
    ensures raw_for_node { job_of_words (codes "node" ∷ codes "a" ∷ codes "b" ∷ codes "--turns=1" ∷ codes "--me=0" ∷
        codes "--raw" ∷ []) ≡
        None }
    ensures patience_for_load { job_of_words (codes "load" ∷ codes "a" ∷ codes "--seed=1" ∷ codes "--events=1" ∷
        codes "--members=1" ∷
        codes "--patience=1" ∷ []) ≡ None }
    ensures no_law { job_of_words (codes "audit" ∷ codes "a" ∷ []) ≡ None }
    ensures another_law { job_of_words (codes "audit" ∷ codes "a" ∷ codes "--law=order" ∷ []) ≡ None }
    ensures script_for_audit { job_of_words (codes "audit" ∷ codes "a" ∷ codes "b" ∷ codes "--law=same" ∷ []) ≡ None }
    ensures law_for_check { job_of_words (codes "check" ∷ codes "a" ∷ codes "--law=same" ∷ []) ≡ None }
    ensures wire_for_node { job_of_words (codes "node" ∷ codes "a" ∷ codes "b" ∷ codes "--turns=1" ∷ codes "--me=0" ∷
        codes "--wire" ∷ [])
        ≡ None }
{}

/// Numbers that are out of form or bounds.
pub fn refuse_numbers()
    ensures sign { job_of_words (codes "load" ∷ codes "a" ∷ codes "--seed=+1" ∷ codes "--events=1" ∷
        codes "--members=1" ∷ []) ≡ None }
    ensures nothing { job_of_words (codes "load" ∷ codes "a" ∷ codes "--seed=" ∷ codes "--events=1" ∷
        codes "--members=1" ∷ []) ≡ None }
    ensures leading_zero { job_of_words (codes "load" ∷ codes "a" ∷ codes "--seed=07" ∷ codes "--events=1" ∷
        codes "--members=1" ∷ []) ≡
        None }
    ensures large_seed { job_of_words (codes "load" ∷ codes "a" ∷ codes "--seed=4294967296" ∷ codes "--events=1" ∷
        codes "--members=1" ∷ []) ≡ None }
    ensures many_events { job_of_words (codes "load" ∷ codes "a" ∷ codes "--seed=1" ∷ codes "--events=100000" ∷
        codes "--members=1" ∷ [])
        ≡ None }
    ensures no_members { job_of_words (codes "load" ∷ codes "a" ∷ codes "--seed=1" ∷ codes "--events=1" ∷
        codes "--members=0" ∷ []) ≡ None }
    ensures many_members { job_of_words (codes "load" ∷ codes "a" ∷ codes "--seed=1" ∷ codes "--events=1" ∷
        codes "--members=33" ∷ []) ≡
        None }
    ensures many_turns { job_of_words (codes "node" ∷ codes "a" ∷ codes "b" ∷ codes "--turns=1000001" ∷ codes "--me=0" ∷
        []) ≡ None }
    ensures much_patience { job_of_words (codes "node" ∷ codes "a" ∷ codes "b" ∷ codes "--turns=1" ∷ codes "--me=0" ∷
        codes "--patience=1001" ∷ []) ≡ None }
    ensures no_patience { job_of_words (codes "node" ∷ codes "a" ∷ codes "b" ∷ codes "--turns=1" ∷ codes "--me=0" ∷
        codes "--patience=" ∷
        []) ≡ None }
    ensures large_member { job_of_words (codes "node" ∷ codes "a" ∷ codes "b" ∷ codes "--turns=1" ∷ codes "--me=32" ∷
        []) ≡ None }
    ensures no_member { job_of_words (codes "node" ∷ codes "a" ∷ codes "b" ∷ codes "--turns=1" ∷ codes "--me=" ∷ []) ≡
        None }
    ensures member_twice { job_of_words (codes "node" ∷ codes "a" ∷ codes "b" ∷ codes "--turns=1" ∷ codes "--me=1,1" ∷
        []) ≡ None }
    ensures members_fall { job_of_words (codes "node" ∷ codes "a" ∷ codes "b" ∷ codes "--turns=1" ∷ codes "--me=1,0" ∷
        []) ≡ None }
    ensures space { job_of_words (codes "node" ∷ codes "a" ∷ codes "b" ∷ codes "--turns=1" ∷ codes "--me=0, 1" ∷ []) ≡
        None }
    ensures comma_at_the_end { job_of_words (codes "node" ∷ codes "a" ∷ codes "b" ∷ codes "--turns=1" ∷
        codes "--me=0," ∷ []) ≡ None }
{}

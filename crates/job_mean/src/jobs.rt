//! Words of the command line, and the jobs that they name by the definitions.
ghost use Rattle.std.specs.Prelude.{◌≡◌, [], ◌∷◌, Some, codes, true, false};
ghost use Rattle.clap.specs.Faults.{is_simple_and_free};
ghost use Rattle.job_mean.specs.Command.{command, telling_command};
ghost use Rattle.audit_mean.specs.declared.law.Law.TheVariants.{Sender, Total, Same};
ghost use Rattle.run_mean.specs.Mode.{layered, bypass};
ghost use Rattle.job_mean.specs.Job.{job_of_words, check, synth, pack, replay, replay_with, explain, load, node, audit};

/// `clap` promises of these commands what it finds, and that it refuses exactly what the definition refuses.
pub fn simple_command()
    ensures all { is_simple_and_free command ≡ true }
    ensures telling { is_simple_and_free telling_command ≡ true }
{}

/// These words name these jobs.
pub fn name_jobs()
    ensures checks { job_of_words (codes "check" ∷ codes "a.layers" ∷ []) ≡ Some (check (codes "a.layers")) }
    ensures packs { job_of_words (codes "pack" ∷ codes "a.layers" ∷ []) ≡ Some (pack (codes "a.layers")) }
    ensures synthesizes { job_of_words (codes "synth" ∷ codes "a.layers" ∷ []) ≡ Some (synth (codes "a.layers")) }
    ensures replays { job_of_words (codes "replay" ∷ codes "a" ∷ codes "b" ∷ codes "--run" ∷ codes "layered" ∷ []) ≡
        Some (replay (codes "a") (codes "b") layered false false false) }
    ensures replays_by_default { job_of_words (codes "replay" ∷ codes "a" ∷ codes "b" ∷ []) ≡
        Some (replay (codes "a") (codes "b") bypass false false false) }
    ensures in_any_order { job_of_words (codes "--count" ∷ codes "replay" ∷ codes "--run=bypass" ∷ codes "a" ∷
        codes "--wire" ∷ codes "b" ∷
        []) ≡ Some (replay (codes "a") (codes "b") bypass false true true) }
    ensures replays_traces { job_of_words (codes "replay" ∷ codes "a" ∷ codes "b" ∷ codes "--with" ∷ codes "t" ∷ []) ≡
        Some (replay_with (codes "a") (codes "b") (codes "t") false false false) }
    ensures replays_traces_by_bypasses { job_of_words (codes "replay" ∷ codes "--with=t" ∷ codes "a" ∷ codes "--wire" ∷
        codes "--run=bypass" ∷
        codes "b" ∷ codes "--count" ∷ []) ≡ Some (replay_with (codes "a") (codes "b") (codes "t") false true true) }
    ensures tells_events { job_of_words (codes "replay" ∷ codes "a" ∷ codes "b" ∷ codes "--events" ∷ []) ≡
        Some (replay (codes "a") (codes "b") bypass true false false) }
    ensures tells_events_in_any_order { job_of_words (codes "--events" ∷ codes "--run=layered" ∷ codes "replay" ∷
        codes "a" ∷ codes "--wire" ∷ codes "b" ∷ codes "--count" ∷ []) ≡
        Some (replay (codes "a") (codes "b") layered true true true) }
    ensures tells_events_by_traces { job_of_words (codes "replay" ∷ codes "a" ∷ codes "--events" ∷ codes "b" ∷
        codes "--with=t" ∷ []) ≡ Some (replay_with (codes "a") (codes "b") (codes "t") true false false) }
    ensures explains { job_of_words (codes "explain" ∷ codes "a" ∷ codes "b" ∷ []) ≡
        Some (explain (codes "a") (codes "b")) }
    ensures loads { job_of_words (codes "load" ∷ codes "a" ∷ codes "--seed=4294967295" ∷ codes "--events" ∷
        codes "99999" ∷ codes "--members" ∷ codes "32" ∷ []) ≡
        Some (load (codes "a") 4294967295 99999 32 false bypass) }
    ensures loads_datagrams { job_of_words (codes "load" ∷ codes "a" ∷ codes "--raw" ∷ codes "--seed=7" ∷
        codes "--events=0" ∷
        codes "--members=1" ∷ codes "--run=layered" ∷ []) ≡ Some (load (codes "a") 7 0 1 true layered) }
    ensures runs_a_node { job_of_words (codes "node" ∷ codes "a" ∷ codes "b" ∷ codes "--turns" ∷ codes "1000000" ∷
        codes "--me" ∷
        codes "0,2,31" ∷ codes "--run" ∷ codes "layered" ∷ []) ≡
        Some (node (codes "a") (codes "b") 1000000 (0 ∷ 2 ∷ 31 ∷ []) 0 layered) }
    ensures runs_a_patient_node { job_of_words (codes "node" ∷ codes "a" ∷ codes "b" ∷ codes "--patience" ∷
        codes "1000" ∷ codes "--turns=1" ∷
        codes "--me=0" ∷ []) ≡ Some (node (codes "a") (codes "b") 1 (0 ∷ []) 1000 bypass) }
    ensures audits_peers { job_of_words (codes "audit" ∷ codes "r" ∷ codes "--law" ∷ codes "sender" ∷ []) ≡
        Some (audit (codes "r") Sender) }
    ensures audits_order { job_of_words (codes "audit" ∷ codes "--law=total" ∷ codes "r" ∷ []) ≡
        Some (audit (codes "r") Total) }
    ensures audits_views { job_of_words (codes "audit" ∷ codes "r" ∷ codes "--law=same" ∷ []) ≡
        Some (audit (codes "r") Same) }
    ensures after_the_end_of_options { job_of_words (codes "check" ∷ codes "--" ∷ codes "--wire" ∷ []) ≡
        Some (check (codes "--wire")) }
    ensures hyphen_and_nothing { job_of_words (codes "replay" ∷ codes "-" ∷ [] ∷ []) ≡
        Some (replay (codes "-") [] bypass false false false) }
{}

//! The line on the standard error and the status of each end.
ghost use Rattle.std.specs.Prelude.{◌≡◌, [], codes};
ghost use Rattle.layer_words.specs.declared.events.Kind.TheVariants.{BlockOk};
ghost use Rattle.script_mean.specs.Script.{too_long, bad_line, no_member};
ghost use Rattle.audit_mean.specs.Finding as finding;
ghost use Rattle.layer_mean.specs.declared.run.Case.TheVariants.{First, Second};
ghost use Rattle.pack_mean.specs.Accepted as traces;
ghost use Rattle.end_mean.specs.Status.{error_line, status_number, done, breached, file_refused, report_refused};
ghost use Rattle.end_mean.specs.Status.{words_refused, second_refused, traces_refused, read_failed, write_failed};
ghost use Rattle.end_mean.specs.Status.{link_failed, no_memory};
ghost use Rattle.end_mean.specs.Status.{too_large, bad_token, unexpected, unknown, twice, over_limit, wrong_kind};
ghost use Rattle.end_mean.specs.Status.{arity, direction, header, initial, cycle, too_many, too_many_joins, misspelled};
ghost use Rattle.end_mean.specs.Status.{too_many_rows};

/// The lines of a file's faults.
pub fn say_file_faults()
    ensures length { error_line (file_refused too_large) ≡ codes "file: too large\n" }
    ensures tokens { error_line (file_refused (bad_token (record { line = 1; col = 12 }))) ≡
        codes "file: token 1:12\n" }
    ensures grammar { error_line (file_refused (unexpected (record { line = 20; col = 1 }))) ≡
        codes "file: unexpected 20:1\n" }
    ensures names { error_line (file_refused (unknown (record { line = 3; col = 4 }))) ≡ codes "file: unknown 3:4\n" }
    ensures names_twice { error_line (file_refused (twice (record { line = 3; col = 4 }))) ≡ codes "file: twice 3:4\n" }
    ensures limits { error_line (file_refused (over_limit (record { line = 3; col = 4 }))) ≡ codes "file: limit 3:4\n" }
    ensures types { error_line (file_refused (wrong_kind (record { line = 3; col = 4 }))) ≡ codes "file: kind 3:4\n" }
    ensures arities { error_line (file_refused (arity (record { line = 3; col = 4 }))) ≡ codes "file: arity 3:4\n" }
    ensures directions { error_line (file_refused (direction (record { line = 3; col = 4 }))) ≡
        codes "file: direction 3:4\n" }
    ensures headers { error_line (file_refused (header (record { line = 3; col = 4 }))) ≡ codes "file: header 3:4\n" }
    ensures initials { error_line (file_refused (initial (record { line = 3; col = 4 }))) ≡
        codes "file: initial 3:4\n" }
    ensures cycles { error_line (file_refused (cycle 2 BlockOk)) ≡ codes "file: cycle 2 BlockOk\n" }
    ensures weights { error_line (file_refused (too_many 65537)) ≡ codes "file: too many 65537\n" }
    ensures joins { error_line (file_refused too_many_joins) ≡ codes "file: joins\n" }
{}

/// The lines of a script's and a plan's faults.
pub fn say_second_faults()
    ensures length { error_line (second_refused (misspelled too_long)) ≡ codes "script: too long\n" }
    ensures form { error_line (second_refused (misspelled (bad_line 100001))) ≡ codes "script: line 100001\n" }
    ensures member { error_line (second_refused (misspelled (no_member 1))) ≡ codes "script: member 1\n" }
    ensures rows { error_line (second_refused too_many_rows) ≡ codes "script: rows\n" }
{}

/// The lines of the faults of a file of traces.
pub fn say_traces_faults()
    ensures length { error_line (traces_refused traces.too_large) ≡ codes "bypass: too large\n" }
    ensures form { error_line (traces_refused (traces.bad_line 1)) ≡ codes "bypass: line 1\n" }
    ensures cast { error_line (traces_refused (traces.differs 0 First 0)) ≡ codes "bypass: entry cast case 1 op 0\n" }
    ensures send { error_line (traces_refused (traces.differs 1 Second 12)) ≡
        codes "bypass: entry send case 2 op 12\n" }
    ensures plan { error_line (traces_refused (traces.differs 5 First 4095)) ≡
        codes "bypass: entry plan 3 case 1 op 4095\n" }
{}

/// The lines of a report's faults.
pub fn say_report_faults()
    ensures length { error_line (report_refused finding.too_large) ≡ codes "file: too large\n" }
    ensures form { error_line (report_refused (finding.bad_line 4)) ≡ codes "file: line 4\n" }
{}

/// The statuses, and the other lines.
pub fn say_statuses()
    ensures good { (status_number done ≡ 0) × (error_line done ≡ []) }
    ensures file { status_number (file_refused too_large) ≡ 1 }
    ensures report { status_number (report_refused finding.too_large) ≡ 1 }
    ensures breach { (status_number breached ≡ 8) × (error_line breached ≡ codes "breach\n") }
    ensures words { (status_number words_refused ≡ 2) × (error_line words_refused ≡ codes "words: refused\n") }
    ensures second { status_number (second_refused too_many_rows) ≡ 3 }
    ensures traces { status_number (traces_refused traces.too_large) ≡ 9 }
    ensures read { (status_number read_failed ≡ 4) × (error_line read_failed ≡ codes "read fault\n") }
    ensures write { (status_number write_failed ≡ 5) × (error_line write_failed ≡ codes "write fault\n") }
    ensures link { (status_number link_failed ≡ 6) × (error_line link_failed ≡ codes "link fault\n") }
    ensures memory { (status_number no_memory ≡ 7) × (error_line no_memory ≡ codes "no memory\n") }
{}

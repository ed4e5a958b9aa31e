//! What is told, on a worked case.
ghost use Rattle.std.specs.Prelude.{◌≡◌, codes, Some, None};
ghost use Rattle.audit_mean.specs.declared.law.Law.TheVariants.{Sender};
ghost use Rattle.hunt_mean.specs.Ends.{holds_line};
ghost use Rattle.hunt_mean.specs.Find.{numbered_line, told_breach};
ghost use Rattle.hunt_mean.specs.Words.{style_of};
ghost use Rattle.hunt_mean.specs.declared.style.Style.TheVariants.{Mixed, Flood, Crash, Part};

/// The lines of a report by their numbers, and the comments that tell two of them.
pub fn lines_are_told()
    ensures first { numbered_line (codes "deliver 1 cast 0 62\ndeliver 0 cast 0 61\nend 4\n") 1 ≡
        codes "deliver 1 cast 0 62" }
    ensures second { numbered_line (codes "deliver 1 cast 0 62\ndeliver 0 cast 0 61\nend 4\n") 2 ≡
        codes "deliver 0 cast 0 61" }
    ensures told { told_breach Sender (codes "deliver 1 cast 0 62\ndeliver 0 cast 0 61\nend 4\n") 1 2
        ≡ codes "# breaks sender\n# line 1: deliver 1 cast 0 62\n# line 2: deliver 0 cast 0 61\n" }
{}

/// The line of runs in which no breach was found.
pub fn runs_are_told()
    ensures { holds_line 100 ≡ codes "holds 100\n" }
{}

/// The style of a hunt by its word, which may be missing.
pub fn styles_are_named()
    ensures none { style_of None ≡ Some Mixed }
    ensures mixed { style_of (Some (codes "mixed")) ≡ Some Mixed }
    ensures flood { style_of (Some (codes "flood")) ≡ Some Flood }
    ensures crash { style_of (Some (codes "crash")) ≡ Some Crash }
    ensures part { style_of (Some (codes "part")) ≡ Some Part }
    ensures other { style_of (Some (codes "floods")) ≡ None }
{}

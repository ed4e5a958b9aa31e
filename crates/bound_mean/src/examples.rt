//! What is told, on a worked case.
ghost use Rattle.std.specs.Prelude.{◌≡◌, codes};
ghost use Rattle.bound_mean.specs.Samples.{sample};
ghost use Rattle.bound_mean.specs.Told.{holds_line, holds_to_line};

/// The line where each script keeps the law, and the one where the time was up.
pub fn lines_are_told()
    ensures holds { holds_line sample 103 ≡ codes "holds total events 4 repeats 0 members 3 scripts 103\n" }
    ensures holds_to { holds_to_line sample 3 45 ≡
        codes "holds to 3 total events 4 repeats 0 members 3 scripts 45\n" }
{}

//! Laws of what is told and of what is counted, the contracts of functions that do nothing.

ghost use Rattle.std.specs.Prelude.{◌≡◌, ◌++◌, ◌∷◌, [], ℕ, Bool, List, Option};
ghost use Rattle.run_mean.specs.Mode.{Mode};
ghost use Rattle.layer_mean.specs.Tree.{LayerTree};
ghost use Rattle.run_mean.specs.Member.{Member, Output};
ghost use Rattle.run_mean.specs.Report.{Moment, first_number, mode_if, moment_lines, run_of};
ghost use Rattle.run_mean.specs.Tally.{tally};
ghost use Rattle.run_mean.specs.World.{member_at};
ghost use Rattle.script_mean.specs.Event.{member_of};
ghost use Rattle.script_mean.specs.declared.script.Script.{Script};
ghost use Rattle.stack_mean.specs.Plan.{Plan};
ghost use Rattle.view_core.specs.Happenings.{DidIs};
ghost use Rattle.view_core.specs.declared.step.Did as code;
ghost use Rattle.view_core.specs.declared.step.Did.TheVariants as did;
ghost use Rattle.report_text.specs.Counts.{with_event_counted, counts_of, tally_lines};
ghost use Rattle.report_text.specs.Told.{told_lines};

/// What is told of a moment in a mode, from what the code has of it, are its lines.
pub fn told_is_the_moment()
    ensures { (mode : Mode) → (stack : List LayerTree) → (plans : List Plan) → (wire : Bool) → (m : Moment) →
        (outs : List (Output × Option ℕ)) →
        (before : ℕ) → (after : ℕ) → (d : code.Did) → (shown : Member) → (first : ℕ) →
        DidIs mode stack plans m.happening.did outs before after d →
        (d ≡ did.Shown → shown ≡ member_at m.before (member_of m.event)) → first ≡ first_number m →
        told_lines stack plans wire m.event d outs shown first ≡ moment_lines stack plans (mode_if wire mode) m }
{}

/// An event is counted as its moment's lines are.
pub fn counted_with_the_moment()
    ensures { (mode : Mode) → (stack : List LayerTree) → (plans : List Plan) → (run : List Moment) → (m : Moment) →
        (outs : List (Output × Option ℕ)) → (before : ℕ) → (after : ℕ) → (d : code.Did) →
        DidIs mode stack plans m.happening.did outs before after d →
        with_event_counted (counts_of mode stack plans run) d outs ≡ counts_of mode stack plans (run ++ m ∷ []) }
{}

/// The counts of a run are told in the two lines that stand in place of its report.
pub fn counted_is_the_tally()
    ensures { (mode : Mode) → (stack : List LayerTree) → (plans : List Plan) → (s : Script) →
        tally_lines (counts_of mode stack plans (run_of stack plans s)) ≡ tally stack plans mode s }
{}

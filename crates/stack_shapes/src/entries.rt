//! The shapes of a stack's entries, as they are kept.

ghost use Rattle.std.specs.Prelude.{◌≡◌, List, option_map};
ghost use Rattle.layer_mean.specs.declared.run.Case.TheVariants.{First, Second};
ghost use Rattle.layer_mean.specs.Queue.{is_predicted};
ghost use Rattle.layer_mean.specs.Tree.{LayerTree};
ghost use Rattle.stack_mean.specs.Plan.{Plan};
ghost use Rattle.run_mean.specs.Common.{is_common};
ghost use Rattle.run_mean.specs.Member.{Step};
ghost use Rattle.shape_core.specs.Cases.{case_trees};
ghost use Rattle.stack_shapes.specs.Shapes.{short_shapes};
ghost use Rattle.stack_shapes.specs.Entries.{EntriesTellCommon, common_by, entry_for, shapes_at};

use crate::cases::has_case;
use crate::entry::EntryOf;
use shape_core::CaseShapes;
use std::marker::Model;

/// For each entry of a stack, in each case, its shape if it has one that isn't too long, or why it has none: for an
/// application's cast, for its send, and for the packets of each plan.
#[derive(Drop)]
pub struct EntryShapes {
    pub(crate) cast: CaseShapes,
    pub(crate) send: CaseShapes,
    pub(crate) plans: Vec<CaseShapes>,
}

impl Model for EntryShapes {
    ghost use Rattle.std.specs.Prelude.{map};
    ghost use Rattle.shape_core.specs.Cases.{case_trees};
    ghost use Rattle.stack_shapes.specs.Shapes.{ShortShapes};

    ghost Value = { ShortShapes };

    ghost view = { λ e. record
        { cast = case_trees e.cast; send = case_trees e.send; plans = map case_trees e.plans.items } };
}

impl EntryShapes {
    /// The shapes of an entry in each case, or why it has none; None where there is no such entry.
    pub fn at(&self, entry: EntryOf) -> Option<&CaseShapes>
        ensures { option_map (λ shapes. case_trees shapes.now) result ≡ shapes_at self.now entry }
    {
        match entry {
            EntryOf::Cast => Some(&self.cast),
            EntryOf::Send => Some(&self.send),
            EntryOf::Plan(number) => self.plans.get(usize::from(number)),
            EntryOf::None => None,
        }
    }

    /// Whether a step that began with an entry is common, given whether all decisions of its run went as predicted in
    /// the first case, and in the second.
    pub fn is_common(&self, entry: EntryOf, first: bool, second: bool) -> bool
        ensures told { result ≡ common_by (shapes_at self.now entry) first second }
        ensures common { (stack : List LayerTree) (plans : List Plan) (s : Step) → self.now ≡ short_shapes stack plans →
            entry ≡ entry_for plans s.entered → first ≡ is_predicted First s.work →
            second ≡ is_predicted Second s.work →
            result ≡ is_common stack plans s }
    {
        match self.at(entry) {
            Some(shapes) => has_case(shapes, first, second),
            None => false,
        }
    }
}

/// A step is common where its entry has a case in which its run went as predicted.
pub fn entries_tell_common()
    ensures { EntriesTellCommon }
{}

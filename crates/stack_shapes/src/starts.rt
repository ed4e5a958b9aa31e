//! Where the plans of an application's own events begin.

ghost use Rattle.std.specs.Prelude.{◌≡◌, ◌≤◌, List, length, map, option_map};
ghost use Rattle.layer_mean.specs.Tree.{LayerTree};
ghost use Rattle.run_mean.specs.Common.{first_plan};
ghost use Rattle.run_mean.specs.Member.{Entered};
ghost use Rattle.shape_core.specs.Cases.{case_trees, drawn_tree, shapes_of};
ghost use Rattle.shape_core.specs.Sketch.{out_tree};
ghost use Rattle.stack_mean.specs.Acceptance.{weight_limit};
ghost use Rattle.stack_mean.specs.Plan.{Plan};
ghost use Rattle.stack_mean.specs.Plans.{outs_of, plans_before};
ghost use Rattle.stack_mean.specs.Shape.{app_cast, app_send};
ghost use Rattle.stack_shapes.specs.Entries.{entry_for};
ghost use Rattle.stack_shapes.specs.Lists.{packets_in};
ghost use Rattle.stack_shapes.specs.Starts.{groups_for, starts_of, starts_tree, HaveFewOuts};

use crate::entry::EntryOf;
use crate::plan::is_packet;
use layer_mean::Case;
use shape_core::{Absent, CaseShapes, Shape, ShapeOut};

/// The numbers of the first plans of an application's own events in each case. They count all packets that are
/// predicted, even where the plans themselves end earlier. The plans of a cast in the first case begin with 0.
#[derive(Clone, Copy, Debug, PartialEq, Eq)]
pub struct PlanStarts {
    pub(crate) first_send: u32,
    pub(crate) second_cast: u32,
    pub(crate) second_send: u32,
}

/// How many of some outputs are packets.
fn count_packets(outs: &[ShapeOut]) -> u32
    requires { length outs.now ≤ weight_limit }
    ensures is { result ≡ length (packets_in (map out_tree outs.now)) }
    ensures few { result ≤ weight_limit }
{
    let mut count = 0;
    for out in outs {
        if is_packet(out) {
            count += 1;
        }
    }
    count
}

/// How many packets a shape sends; none where there is no shape.
fn packets_of(drawn: &Result<Shape, Absent>) -> u32
    requires { length (outs_of (drawn_tree drawn.now)) ≤ weight_limit }
    ensures is { result ≡ length (packets_in (outs_of (drawn_tree drawn.now))) }
    ensures few { result ≤ weight_limit }
{
    match drawn {
        Ok(shape) => count_packets(shape.outs.as_slice()),
        Err(_) => 0,
    }
}

impl PlanStarts {
    /// The starts for the shapes of an application's own cast and send.
    pub(crate) fn count(cast: &CaseShapes, send: &CaseShapes) -> PlanStarts
        requires casts { HaveFewOuts (case_trees cast.now) }
        requires sends { HaveFewOuts (case_trees send.now) }
        ensures { (stack : List LayerTree) → case_trees cast.now ≡ shapes_of stack app_cast →
            case_trees send.now ≡ shapes_of stack app_send →
            starts_tree result ≡ starts_of stack }
    {
        let first_send = packets_of(&cast.first);
        let second_cast = first_send + packets_of(&send.first);
        let second_send = second_cast + packets_of(&cast.second);
        PlanStarts {
            first_send,
            second_cast,
            second_send,
        }
    }

    /// The number of the first plan of an entry in a case; None for all but an application's own cast and send.
    pub fn of(self, entry: EntryOf, case: Case) -> Option<u32>
        ensures groups { (stack : List LayerTree) → starts_tree self ≡ starts_of stack →
            result ≡ option_map (plans_before stack) (groups_for entry case) }
        ensures first { (stack : List LayerTree) → starts_tree self ≡ starts_of stack →
            (plans : List Plan) → (what : Entered) → entry ≡ entry_for plans what →
            result ≡ first_plan stack what case }
    {
        match (entry, case) {
            (EntryOf::Cast, Case::First) => Some(0),
            (EntryOf::Send, Case::First) => Some(self.first_send),
            (EntryOf::Cast, Case::Second) => Some(self.second_cast),
            (EntryOf::Send, Case::Second) => Some(self.second_send),
            _ => None,
        }
    }
}

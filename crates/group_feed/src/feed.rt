//! Groups that events are fed to.

ghost use Rattle.std.specs.Prelude.{◌≡◌, ◌+◌, ◌^◌, ◌<◌, ◌≤◌, length};
ghost use Rattle.stack_mean.specs.Acceptance.{largest_weight};
ghost use Rattle.script_mean.specs.Event.{member_of};
ghost use Rattle.run_mean.specs.World as mean;
ghost use Rattle.group_feed.specs.Feeding.{Fed};
ghost use Rattle.group_feed.specs.Standing.{Peopled, Stands, Stays};

use msg_core::Memory;
use script_mean::ScriptEvent;
use step_outputs::Outputs;
use view_core::Did;

/// A group that takes the events of a script, one at a time. The mode in which its members run their stack, by layers
/// or by bypasses where these hold, is one for all and stays: it says which packets are sent short and how many visits
/// a step counts for, and nothing else.
pub trait Feed {
    /// The group as it is kept: its members, and every packet ever sent in it.
    ghost group: { Self → Peopled };

    /// One event of a script. After it `out` has the outputs of the step alone, and the visits that it made are
    /// counted. Where memory runs out, the group may only be let go.
    fn feed(
        &mut self,
        event: &ScriptEvent,
        out: &mut Outputs,
        visits: &mut u64,
    ) -> Result<Did, Memory>
        requires member { member_of event.now < length (group self.old).members }
        requires out { out.old.places ≡ largest_weight (group self.old).stack }
        requires visits { visits.old ≤ 2 ^ 63 }
        ensures fed { (w : mean.World) → Stands (group self.old) w →
            Fed (group self.old) (mean.happens (group self.old).stack (group self.old).plans w event.now)
            (group self.new) out.new.outputs visits.old
            visits.new result }
        ensures stays { Stays (group self.old) (group self.new) }
        ensures places { out.new.places ≡ out.old.places }
        ensures few { visits.new ≤ visits.old + 65536 };

    /// The number that the next packet gets.
    fn next_number(&self) -> u64
        ensures number { result ≡ length (group self.now).spelled + 1 }
        ensures small { result ≤ 2 ^ 63 };
}

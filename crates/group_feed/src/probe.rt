//! Groups whose events are tried as common steps.

ghost use Rattle.std.specs.Prelude.{◌≡◌, ◌<◌, length};
ghost use Rattle.stack_mean.specs.Acceptance.{largest_weight};
ghost use Rattle.run_mean.specs.Mode.{bypass};
ghost use Rattle.script_mean.specs.Event.{member_of};
ghost use Rattle.run_mean.specs.World as mean;
ghost use Rattle.group_feed.specs.Probing.{Probes};
ghost use Rattle.group_feed.specs.Standing.{Stands, Stays};

use crate::feed::Feed;
use msg_core::Memory;
use script_mean::ScriptEvent;
use step_misses::Probed;
use step_outputs::Outputs;

/// A group that runs by bypasses and tells of an event why it is no common step.
pub trait Probe: Feed {
    /// Tries an event of a script as a common step. If it is one, it is made, as `feed` would make it; else nothing
    /// changes, and for a cast, a send or a packet that would be taken the answer tells what each case of its entry
    /// lacks. Where memory runs out, the group may only be let go.
    fn probe(&mut self, event: &ScriptEvent, out: &mut Outputs) -> Result<Probed, Memory>
        requires mode { (Self.group self.old).mode ≡ bypass }
        requires member { member_of event.now < length (Self.group self.old).members }
        requires out { out.old.places ≡ largest_weight (Self.group self.old).stack }
        ensures probed { (w : mean.World) → Stands (Self.group self.old) w →
            Probes (Self.group self.old)
            (mean.happens (Self.group self.old).stack (Self.group self.old).plans w event.now) (Self.group self.new)
            result }
        ensures stays { Stays (Self.group self.old) (Self.group self.new) }
        ensures places { out.new.places ≡ out.old.places };
}

//! How a node whose group ran ended.

ghost use Rattle.std.specs.Prelude.{◌≡◌};
ghost use Rattle.job_ends.specs.Shown.{shown_end};
ghost use Rattle.node_jobs.specs.Plan.{end_of};

use job_ends::Ending;
use node_loop::NodeError;

/// How a job ends if its run answered this.
pub(crate) fn ending(served: Result<(), NodeError>) -> Ending
    ensures { shown_end result ≡ end_of served }
{
    match served {
        Ok(()) => Ending::Done,
        Err(NodeError::Link) => Ending::Link,
        Err(NodeError::Write) => Ending::Write,
        Err(NodeError::Memory) => Ending::Memory,
    }
}

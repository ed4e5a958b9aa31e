//! What came out of a run, as outputs.

ghost use Rattle.std.specs.Prelude.{◌≡◌, ◌+◌, ◌≤◌, [], ◌++◌, length};
ghost use Rattle.std.specs.List.{AllByRecursion};
ghost use Rattle.circular_buffer.specs.Buffer.{buffer};
ghost use Rattle.pool_message.specs.Moves.{Returned};
ghost use Rattle.pool_message.specs.Sent.{sent_refs, SentLie};
ghost use Rattle.slot_pool.specs.References.{Covers};
ghost use Rattle.group_member.specs.Gathering.{BringsAsKind};
ghost use Rattle.group_member.specs.Working.{outputs_in};

use pool_message::Events;
use slot_pool::Pool;
use step_outputs::Outputs;

/// Puts what came out after the outputs that there are, in order, and gives its references back.
pub(crate) fn gather(outs: &mut Events, pool: &mut Pool, out: &mut Outputs)
    requires lie { SentLie pool.old outs.old.items }
    requires covers { Covers pool.old (sent_refs outs.old.items) }
    requires bring { AllByRecursion BringsAsKind outs.old.items }
    requires room { length out.old.outputs + length outs.old.items ≤ out.old.places }
    ensures empty { outs.new ≡ buffer [] outs.old.capacity }
    ensures returned { Returned pool.old pool.new (sent_refs outs.old.items) }
    ensures gathered { out.new ≡
        record out.old { outputs = out.old.outputs ++ outputs_in out.old.here pool.old outs.old.items } }
{
    while let Some((direction, event)) = outs.first() {
        out.put(direction, event, pool);
        outs.drop_first(pool);
    }
}

//! Joining bodies.

ghost use Rattle.std.specs.Prelude.{◌≡◌, ◌+◌, ◌<◌, ◌≤◌, [], ◌∷◌, ◌++◌};
ghost use Rattle.slot_pool.specs.References.{Covers};
ghost use Rattle.msg_core.specs.Parts.{longest_body};
ghost use Rattle.pool_message.specs.Seen.{body_refs, BodyLies, LiesIn};
ghost use Rattle.pool_message.specs.Moves.{BodiesJoined, PartsJoined};

use crate::part::Part;
use msg_core::LONGEST_BODY;
use slot_pool::Pool;

/// The bytes of `front` and, after them, those of `back`.
pub(crate) fn join_bodies(
    front: Option<Part>,
    back: Option<Part>,
    pool: &mut Pool,
) -> Option<Option<Part>>
    requires there { Covers pool.old (body_refs front ++ body_refs back) }
    requires front { BodyLies pool.old front }
    requires back { BodyLies pool.old back }
    ensures { BodiesJoined pool.old pool.new front back result }
{
    let Some(front) = front else {
        return Some(back);
    };
    let Some(back) = back else {
        return Some(Some(front));
    };
    let part = join_parts(front, back, pool)?;
    Some(Some(part))
}

fn join_parts(front: Part, back: Part, pool: &mut Pool) -> Option<Part>
    requires there { Covers pool.old (front.slot ∷ back.slot ∷ []) }
    requires front { LiesIn pool.old front }
    requires back { LiesIn pool.old back }
    ensures { PartsJoined pool.old pool.new front back result }
{
    if front.len == 0 || front.len + back.len > LONGEST_BODY {
        front.give_back(pool);
        return Some(back);
    }
    if back.len == 0 {
        back.give_back(pool);
        return Some(front);
    }
    join_ranges(front, back, pool)
}

fn join_ranges(front: Part, back: Part, pool: &mut Pool) -> Option<Part>
    requires there { Covers pool.old (front.slot ∷ back.slot ∷ []) }
    requires front { LiesIn pool.old front }
    requires back { LiesIn pool.old back }
    requires some { (0 < front.len) × (0 < back.len) }
    requires fits { front.len + back.len ≤ longest_body }
    ensures { PartsJoined pool.old pool.new front back result }
{
    let len = front.len + back.len;
    match pool.join(front.range(), back.range()) {
        Some(slot) => {
            front.give_back(pool);
            back.give_back(pool);
            Some(Part { slot, from: 0, len })
        }
        None => {
            front.give_back(pool);
            back.give_back(pool);
            None
        }
    }
}

//! Plans as they are kept.

ghost use Rattle.stack_shapes.specs.Lists.{list_tree};
ghost use Rattle.stack_shapes.specs.Prints.{Indexes, Indexes-prop};

use crate::index::Index;
use crate::types::PlanList;

/// The plans of a stack, numbered from 0, of which there are at most `MOST_PLANS`, with an index by which a packet is
/// compared with few of them.
#[derive(Drop)]
pub struct Plans {
    pub(crate) list: PlanList,
    pub(crate) index: Index,
    ghost indexed: { Indexes (list_tree list) index.first.items index.next.items } by { Indexes-prop _ _ _ },
}

//! What a member works with.

use live_layer::FileLayer;
use pool_message::Events;
use slot_pool::Pool;
use stack_queue::Tasks;

/// The layers of a member, lowest first, the pool in which their messages stand, and the lists of a run, which are
/// empty between two runs.
pub struct Works {
    pub(crate) layers: Vec<FileLayer>,
    pub(crate) pool: Pool,
    pub(crate) tasks: Tasks,
    pub(crate) outs: Events,
}

//! A pool of message bodies: a fixed number of slots in one block of memory, each with a count of the references to it.
#![tactic(auto)]

mod laws;
mod pool;
mod row;
mod slot_record;

// A crate can name a pool in a contract only if the types of its fields are exported.
pub use laws::{
    a_map_is_of_one_pool, a_pool_is_a_finite_map, calls_move_references, counts_stay_exact,
    moves_compose, slots_suffice,
};
pub use pool::{Pool, Slot, SlotRange};
#[doc(hidden)]
pub use row::Row;
pub use slot_record::LONGEST;
#[doc(hidden)]
pub use slot_record::SlotRecord;

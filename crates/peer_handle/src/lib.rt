//! Members of groups behind a handle that a program in C can keep, in memory of its own: what is asked of a member, in
//! numbers and bytes.
#![tactic(auto)]

mod answer;
mod event;
mod fault;
mod handle;
mod machine;
mod opening;
mod order;
mod parts;
mod seal;
mod sentence;
mod steps;
mod telling;

pub use answer::{Opening, opening_number};
pub use event::ToldEvent;
pub use fault::ToldFault;
pub use handle::Handle;
pub use machine::Machine;
pub use opening::open;
pub use order::Order;
pub use seal::Seal;
pub use steps::{close, step};
pub use telling::next;

//! A member of a group that is opened alone, over a stack, where the group's first view begins.
#![tactic(auto)]

mod member;
mod opening;

pub use member::OpenMember;
pub use opening::open_member;

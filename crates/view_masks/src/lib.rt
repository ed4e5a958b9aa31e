//! Who is in a view, as its mask tells: whether an id is, how many members there are, their ranks, the first view of a
//! group and the view after a view.
#![tactic(auto)]

mod masks;

pub use masks::{all_of, first_view, has, member_at, member_count, next_view, rank};

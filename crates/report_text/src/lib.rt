//! What a run writes: the lines of each event, put one by one on a sink, the last lines of a report, and counts of
//! lines in place of them.
#![tactic(auto)]

mod cells;
mod counts;
mod event;
mod laws;
mod manner;
mod output;
mod pen;
mod state;
mod tally;
mod wire;

pub use counts::Counts;
pub use event::{write_change, write_end, write_event, write_journal, write_refusal, write_visits};
pub use laws::{counted_is_the_tally, counted_with_the_moment, told_is_the_moment};
pub use manner::{Issuer, Manner, Outcome};
pub use output::{number_following, put_output};
pub use pen::Pen;
pub use tally::{Tally, write_tally};
pub use wire::spell;

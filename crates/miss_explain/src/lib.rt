//! Why the steps of a script weren't common, written line by line: what each case of such a step lacked, and where in
//! the layers' texts the decision that left the prediction stands.
#![tactic(auto)]

mod handlers;
mod kept;
mod lack;
mod meeting;
mod miss;
mod script;
mod search;
mod spot;
mod statements;
mod texts;

pub use miss::{Step, write_miss};
pub use script::{Explanation, explain};
pub use texts::Texts;

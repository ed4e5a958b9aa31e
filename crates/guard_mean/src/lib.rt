//! Guards of traces, as definitions: every check of a trace carried to its entry, made simpler, and laid out as the
//! code that is run.
#![tactic(auto)]

pub mod samples;

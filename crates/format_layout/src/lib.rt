//! A layer file, laid out and put line by line.
#![tactic(auto)]

mod class;
mod line;
mod marks;
mod text;

pub use text::lay_out;

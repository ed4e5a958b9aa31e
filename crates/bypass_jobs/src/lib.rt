//! The jobs `synth` and `pack`: the bypasses of a stack file's stack as text, to be read, and their traces as a file,
//! to be run.
#![tactic(auto)]

mod printing;
mod synthesis;
mod text;

pub use synthesis::{pack, synthesize};

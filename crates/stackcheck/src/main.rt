//! `stackcheck`: whether each script of a family keeps a law of the group, or a shortest one that breaks it.
#![tactic(auto)]

use bound_run::program;
use std::process::ExitCode;

fn main(rt: HostRuntime) -> ExitCode {
    ExitCode::from(program(&rt, rt.stdout(), rt.stderr(), rt.stderr()))
}

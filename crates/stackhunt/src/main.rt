//! `stackhunt`: looks for a script whose report breaks a law of the group.
#![tactic(auto)]

use hunt_run::program;
use std::process::ExitCode;

fn main(rt: HostRuntime) -> ExitCode {
    ExitCode::from(program(&rt, rt.stdout(), rt.stderr(), rt.stderr()))
}

//! `stackc`: replays scripts over a stack of protocol layers, judges stack files, and audits reports.
#![tactic(auto)]

use stackc_run::program;
use std::process::ExitCode;

fn main(rt: HostRuntime) -> ExitCode {
    ExitCode::from(program(&rt, rt.stdout(), rt.stderr()))
}

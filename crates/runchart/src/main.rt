//! `runchart`: draws a picture of a run from its report.
#![tactic(auto)]

use chart_draw::program;
use std::process::ExitCode;

fn main(rt: HostRuntime) -> ExitCode {
    ExitCode::from(program(&rt, rt.stdout(), rt.stderr()))
}

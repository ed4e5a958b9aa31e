//! `layerfmt`: prints a layer file in its one layout.
#![tactic(auto)]

use format_run::program;
use std::process::ExitCode;

fn main(rt: HostRuntime) -> ExitCode {
    ExitCode::from(program(&rt, rt.stdout(), rt.stderr()))
}

//! The program `semper`.
#![tactic(auto)]

use sem_run::program;
use std::process::ExitCode;

fn main(rt: HostRuntime) -> ExitCode {
    program(&rt, &rt)
}

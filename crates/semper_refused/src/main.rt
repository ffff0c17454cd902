//! The program, run on a trace that is refused.
#![tactic(auto)]

use sem_run::program;
use std::process::ExitCode;

fn main(rt: HostRuntime) -> ExitCode {
    program(&rt, &rt)
}

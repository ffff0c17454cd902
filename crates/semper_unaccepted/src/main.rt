//! The program, run to check a text that is not the report of a complete schedule.
#![tactic(auto)]

use sem_run::program;
use std::process::ExitCode;

fn main(rt: HostRuntime) -> ExitCode {
    program(&rt, &rt)
}

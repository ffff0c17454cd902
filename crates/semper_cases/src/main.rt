//! Runs the cases in the folders below the current one, and prints folder by folder how many
//! passed. It names every case that differs, and every table with a record that does. Ends with 0
//! if all passed, with 1 if one differs, and with 3 if a file cannot be read.
#![tactic(auto)]

mod cases;
mod folders;
mod records;
mod waits;

use crate::folders::try_folders;
use std::process::ExitCode;

fn main(rt: HostRuntime) -> ExitCode {
    match try_folders(&rt) {
        Ok(0) => ExitCode::from(0),
        Ok(_) => ExitCode::from(1),
        Err(error) => {
            let _ = eprintln!(rt; "semper-cases: {error}");
            ExitCode::from(3)
        }
    }
}

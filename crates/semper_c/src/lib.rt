//! The program as a static library with a C interface, declared in `include/semper.h`: texts in,
//! texts out into the caller's buffer, a status back. It never waits, and keeps nothing.
#![tactic(auto)]

mod answers;
mod exports;
mod kept;

pub use exports::{semper_check, semper_contents, semper_run, semper_version};

//! The calls that a kernel does with what its own VPEs hold: derives, gates, and the use of
//! endpoints.
#![tactic(auto)]

mod children;
mod endpoints;
mod refusals;

pub use children::{Gate, Part, derive_call, gate_call};
pub use endpoints::{bind_call, credit_call, read_call, send_call, write_call};

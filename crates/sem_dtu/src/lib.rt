//! The endpoints through which the VPEs of one kernel reach memory and send messages.
#![tactic(auto)]

mod binding;
mod dtus;
mod endpoint;
mod fault;
mod object_tests;
mod op;
mod row;

pub use dtus::Dtus;
pub use op::{Op, UseFault};
pub use sem_key::OutOfMemory;

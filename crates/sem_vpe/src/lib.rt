//! What one kernel keeps of its VPEs: whether they live, their selectors, numbers and calls, and
//! their asks.
#![tactic(auto)]

mod fault;
mod queue;
mod refusals;
#[cfg(test)]
mod tests;
mod vpe;
mod vpes;

pub use fault::{Numbers, Occupied};
pub use sem_key::OutOfMemory;
pub use sem_msg::{Ask, Slot};
pub use vpes::Vpes;

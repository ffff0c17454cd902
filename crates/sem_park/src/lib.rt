//! The calls of VPEs that wait in a kernel, at most one for each VPE.
#![tactic(auto)]

mod park;

pub use park::Park;
pub use sem_msg::Parked;

//! What kernels share: a link for each ordered pair of kernels, and the journal of the run.
#![tactic(auto)]

mod fabric;
mod laws;
mod link;
mod marking;
mod row;

pub use fabric::Fabric;
pub use laws::entries_keep_agreement;

//! Setups that a seed generates.
#![tactic(auto)]

mod calls;
mod laws;
mod setups;

pub use laws::generated_vpes_go_on;
pub use setups::generate;

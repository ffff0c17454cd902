//! Numbers that a seed draws.
#![tactic(auto)]

mod draws;

pub use draws::Draws;

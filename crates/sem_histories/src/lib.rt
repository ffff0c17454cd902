//! The law behind an exact list of all outcomes of a setup. Schedules with the same parts lead to
//! the same world and the same replies. A set of schedules that no event leads out of has every
//! outcome.
#![tactic(auto)]

pub mod closed;
pub mod histories;
pub mod listings;
pub mod searches;
pub mod trees;
mod witnesses;

pub use witnesses::{AllOutcomes, Listed, RunOutcome, Sampled, Witness};

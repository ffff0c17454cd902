//! All outcomes of a setup, by a search through its histories; and the outcomes of many seeds.
#![tactic(auto)]

mod endings;
mod faults;
mod histories;
mod listings;
mod meetings;
mod progress;
mod replays;
mod samples;
mod searches;
mod steps;

pub use faults::SearchError;
pub use progress::{Progress, Quiet};
pub use samples::{Sample, sample_outcomes, sample_outcomes_told};
pub use searches::{all_outcomes, all_outcomes_told};

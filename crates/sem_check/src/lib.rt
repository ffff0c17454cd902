//! Journals held against the machine: whether one is a complete schedule, and how much of one is a
//! schedule.
#![tactic(auto)]

mod checks;
mod entries;
mod faults;
mod follows;
mod laws;
mod replays;
mod watch;

pub use checks::{check, check_watched};
pub use faults::CheckError;
pub use follows::{Difference, follow};
pub use laws::a_journal_has_one_verdict;
pub use replays::{first_schedule, replay};
pub use watch::{Note, Noting, Unwatched, Watch};

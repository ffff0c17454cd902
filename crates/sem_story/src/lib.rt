//! The life of one capability after the first entries of a report.
#![tactic(auto)]

mod ancestors;
mod moments;
mod rows;
mod stages;
mod starts;
mod stories;
mod walks;

pub use rows::{Happening, StoryRow};
pub use stages::Stage;
pub use stories::{ROWS, StoryRequest, key_of, story};
pub use walks::{Walk, walk_through};

//! The command line: which words are commands, the one-line texts that the program writes, and the
//! statuses that it ends with.
#![tactic(auto)]

mod commands;
mod forms;
mod messages;
mod refusals;
mod statuses;
mod summaries;

pub use commands::command;
pub use forms::{Command, Question};
pub use messages::{ok, push_files_refused, push_refused, usage};
pub use refusals::{push_bad_line, push_differing, push_going_on};
pub use statuses::Status;
pub use summaries::push_summary;

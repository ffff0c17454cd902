//! What the program does with the words of its command line: it runs traces and file commands, and
//! answers questions about reports.
#![tactic(auto)]

mod accepts;
mod alone;
mod answers;
mod findings;
mod generates;
mod judging;
mod piece;
mod process;
mod refusals;
mod response;
mod responses;
mod runs;
mod services;
mod soaks;
mod text;
mod threads;
mod top;
mod usage;
mod watches;

pub use accepts::reports_are_accepted;
pub use alone::semper_alone;
pub use judging::judge;
pub use process::program;
pub use top::semper;

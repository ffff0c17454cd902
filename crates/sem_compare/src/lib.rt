//! The outcomes of a trace side by side: what they share, and what each has alone, as text and as
//! JSON; samples put together; two reports compared.
#![tactic(auto)]

mod data;
mod differences;
mod endings;
mod found;
mod merging;
mod reports;
mod requests;
mod sums;
mod texts;

pub use data::{CallEnd, HeldKey, Outcome, Outcomes, SeedRange};
pub use differences::report_differences;
pub use found::Found;
pub use merging::merged;
pub use requests::{Telling, no_trace, outcomes_merged, outcomes_of, too_many};

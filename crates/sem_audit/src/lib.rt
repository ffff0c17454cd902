//! The audit of a journal: how many keys were made and how many were cut off, and which keys the
//! kernels hold at the end.
#![tactic(auto)]

mod audits;
mod forests;
mod holds;
mod laws;
mod replays;
mod strays;
mod words;

pub use audits::audit_of;
pub use holds::held_list;
pub use laws::{all_calls_are_answered, nothing_is_stray};
pub use replays::audit;
pub use strays::{answered, stray, stray_of};

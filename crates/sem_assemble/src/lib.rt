//! The logs of several kernels, put together into one journal and written as a report.
#![tactic(auto)]

mod entered;
mod logs;
mod orders;
mod queues;
mod refusals;
mod requests;
mod stuck;

pub use requests::assemble;

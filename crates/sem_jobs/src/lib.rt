//! The open revoke jobs of one kernel, by id, and the working space of one step.
#![tactic(auto)]

mod job;
mod jobs;
mod scratch;
mod spot;
mod vpe_list;

pub use job::Job;
pub use jobs::Jobs;
pub use scratch::Scratch;
pub use sem_key::OutOfMemory;
pub use sem_msg::Up;
pub use vpe_list::VpeList;

//! The calls by which a VPE asks another one for a capability, and what becomes of them. No
//! function here takes memory.
#![tactic(auto)]

mod answers;
mod asks;
mod calls;
mod ends;
mod links;
mod lookups;
mod refusals;
mod resumes;
mod upcalls;

pub use answers::{obtain_answer, obtain_refused, obtain_request};
pub use calls::{obtain_call, offer_call, open_call};
pub use links::{orphan, unlink};
pub use lookups::source;
pub use resumes::obtain_resume;
pub use upcalls::obtain_upcall;

//! The calls by which a VPE delegates a capability to another one, and what becomes of them. Only
//! `Pendings::new` and `Pendings::room` take memory.
#![tactic(auto)]

mod acks;
mod answers;
mod calls;
mod consents;
mod delegations;
mod keys;
mod messages;
mod pendings;
mod preparing;
mod refusals;
mod resumes;
mod upcalls;

pub use acks::ack;
pub use answers::{delegate_prepared, delegate_refused, delegate_request};
pub use calls::delegate_call;
pub use pendings::Pendings;
pub use resumes::{delegate_resume, ready_resume};
pub use sem_msg::Pending;
pub use upcalls::delegate_upcall;

//! The beginning of a revocation: a job opens, what it revokes is marked and unbound, and requests
//! go out for the children elsewhere. The calls `revoke` and `clear`, and the requests of other
//! kernels, begin with it. No function here takes memory.
#![tactic(auto)]

mod begin;
mod calls;
mod messages;
mod opening;
mod owned;
mod region;
mod requests;

pub use begin::begin_revoke;
pub use calls::{clear_call, revoke_call};
pub use requests::revoke_request;

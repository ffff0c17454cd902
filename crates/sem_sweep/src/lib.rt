//! How revocation ends: what a finished job sweeps and who is told, and the end of a VPE. No
//! function here takes memory.
#![tactic(auto)]

mod asks;
mod ends;
mod messages;
mod sweeps;
mod tokens;

pub use ends::end_vpe;
pub use sweeps::sweep;
pub use tokens::revoke_done;

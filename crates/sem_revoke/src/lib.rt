//! What is revoked is gone everywhere, after every schedule of every setup. Revokes and clears
//! follow the links across kernels, jobs answer for what they mark, and a revoking call waits until
//! all of it is gone. Live keys grant no more than their parents, and every lost key has a cause.
//! Each law is the contract of a function that does nothing.
#![tactic(auto)]

pub mod laws;
mod rest_laws;
mod revocations;

pub use rest_laws::{
    cuts_are_answered, dead_vpes_lose_what_they_hold, delegations_are_owed, exchanges_are_owed,
    idle_worlds_hold_the_forest, idle_worlds_wait_for_nothing, jobs_are_owed,
    quiet_schedules_are_complete, quiet_worlds_are_idle, unmarked_links_lead,
};
pub use revocations::{
    delegations_have_one_token, jobs_answer_for_marks, live_keys_narrow_their_parents,
    living_vpes_have_their_replies, nothing_is_lost, revocation_follows_links,
    revoked_keys_are_gone, revokers_wait_for_what_they_revoke, what_is_lost_is_doomed,
    who_asks_waits,
};

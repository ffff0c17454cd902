//! What the grants of a journal tell of its keys: which were made, and which of those were cut off.
#![tactic(auto)]

mod cuts;
mod makes;
mod words;

pub use cuts::{cut_among, cut_keys, ended_by, push_grant};
pub use makes::made_keys;
pub use words::{add_word, has_word};

//! The proof of safety, as far as this crate takes it. It shows what is observed of a world, how
//! each change of the machine appears there, and what is kept of a journal. It follows the lines of
//! keys: every key in use was made, each key is made once and live in one place, the dead stay
//! dead, and marks have a cause. So lineage, sound grants and sound endpoints hold for every
//! schedule. Each VPE has at most one exchange under way. Each law is the contract of a function
//! that does nothing.
#![tactic(auto)]

mod causes;
mod drawn;
mod exchanges;
mod grants;
mod histories;
mod lines;
mod observations;
mod once;
mod onward;
mod uses;

pub use causes::marks_have_a_cause;
pub use drawn::made_keys_were_drawn;
pub use exchanges::asks_are_few;
pub use grants::{grants_are_below_what_is_held, new_grants_are_sound};
pub use histories::histories_tell_journals;
pub use lines::lines_lead_to_roots;
pub use observations::{changes_are_seen, messages_keep_their_way, worlds_are_observed};
pub use once::{
    each_key_is_held_once, each_key_is_made_once, grants_lines_and_endpoints_are_sound,
};
pub use onward::what_is_dead_stays_dead;
pub use uses::what_is_used_was_made;

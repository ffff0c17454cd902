//! What memory holds: the reads and writes of a journal, the last writes as runs of addresses, and
//! the text that tells them.
#![tactic(auto)]

mod account;
mod accounts;
mod chunks;
mod contents;
mod looks;
mod memory;
mod parts;
mod replays;
mod runs;
mod steps;
mod writes;

pub use account::Account;
pub use contents::{print_contents, push_contents};
pub use memory::Memory;
pub use replays::accesses;
pub use sem_access::{Access, AccessList, Look, Run};

//! The calls of a journal, and what each waited for, entry by entry; and the length of the longest
//! chain of entries that had to wait for each other.
#![tactic(auto)]

mod chains;
mod exchanges;
mod revokes;
mod texts;
mod waits;
mod walks;

pub use chains::longest_chain;
pub use texts::{call_words, waits_as_text};
pub use waits::{Wait, waits_in};

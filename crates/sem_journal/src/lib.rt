//! The lines of entries, printed and read, and the definition of a report's text.
#![tactic(auto)]

mod entry;
mod laws;
mod parts;
mod put;
mod read_entries;
mod read_message;
mod shown;

pub use entry::{
    print_entry, push_act, push_consent, push_cut, push_detail, push_entry, push_entry_words,
    push_grant, push_message, push_reply, push_target,
};
pub use laws::{entries_are_read, entry_lines_are_short, one_entry};
pub use put::{MOST_LINE, put_entry};
pub use read_entries::read_entry;

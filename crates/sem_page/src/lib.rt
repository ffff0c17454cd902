//! One page of HTML that shows a report: its style, its script and its data in one file.
#![tactic(auto)]

mod body;
mod pages;
mod ranges;
mod script;
mod style;

pub use pages::{PageParts, page_text};
pub use ranges::{MOST_ENTRIES, page_range};

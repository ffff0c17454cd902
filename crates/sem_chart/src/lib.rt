//! The message chart of a report: its lanes, its rows, and the label of each entry.
#![tactic(auto)]

mod charts;
mod counts;
mod labels;
mod lanes;
mod names;
mod partners;
mod rows;

pub use charts::{Range, chart_of};
pub use counts::{count_between, count_code, count_event, count_message, message_number};
pub use labels::{OtherEnd, label_of};
pub use lanes::{Shown, vpe_of};
pub use names::{message_name, message_names};
pub use partners::{Partners, partners_of};
pub use rows::{NumberedEntry, chart_rows};

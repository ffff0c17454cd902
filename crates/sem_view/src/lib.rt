//! Views of a report: message charts and counts.
#![tactic(auto)]

mod queues;
mod requests;
mod stats;
mod stats_json;
mod stats_text;

pub use requests::{ROWS, Request, respond};
pub use sem_chart::{
    NumberedEntry, Range, Shown, chart_of, chart_rows, count_between, count_code, count_event,
    count_message, message_number,
};
pub use stats::{AskCount, CallCost, LinkCount, RevokeTime, Stats, stats_of};
pub use stats_json::stats_as_json;
pub use stats_text::stats_as_text;

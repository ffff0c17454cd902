//! A text that is not refused as a report is the text of a report.
#![tactic(auto)]

pub mod laws;

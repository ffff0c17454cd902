//! Why a trace, a report or file commands are refused.
#![tactic(auto)]

mod explanations;
mod texts;

pub use explanations::{explain_files, explain_report, explain_trace};

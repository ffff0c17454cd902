//! Reports, printed and read.
#![tactic(auto)]

mod audits;
mod laws;
mod lines;
mod report;
mod report_lines;
mod report_reader;
mod trace_head;
mod verdict;

pub use audits::{audit_difference, same_audit};
pub use laws::{one_report, reports_are_read};
pub use lines::first_difference;
pub use report::{print_report, push_audit, push_head};
pub use report_reader::read_report;
pub use verdict::Verdict;

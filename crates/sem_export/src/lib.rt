//! A report for other tools: as lines of JSON, as a sequence diagram of Mermaid, and as a trace for
//! Perfetto.
#![tactic(auto)]

mod audits;
mod entries;
mod lines;
mod mermaid;
mod messages;
mod perfetto;
mod requests;
mod schema;
mod setups;
mod words;

pub use lines::{json_lines, told_lines};
pub use requests::{ExportRequest, export};
pub use schema::SCHEMA;

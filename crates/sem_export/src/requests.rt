// Requests for an export, and their answers.
use crate::lines::json_lines;
use crate::mermaid::mermaid;
use crate::perfetto::perfetto;
use crate::schema::SCHEMA;
use sem_chart::{Range, Shown, chart_of};
use sem_draw::{Answer, Ending};
use sem_hint::no_report;
use sem_key::OutOfMemory;
use sem_msg::{Audit, Journal, Setup};
use sem_report::read_report;
use std::alloc::Global;

/// A request for an export.
#[derive(Clone, Copy, Debug, PartialEq, Eq)]
pub enum ExportRequest {
    /// The report as one JSON object a line.
    Json,
    /// The JSON Schema of these lines; the input is not read.
    Schema,
    /// The entries from `from` up to `to` as a sequence diagram of Mermaid.
    Mermaid { from: Option<u64>, to: Option<u64> },
    /// The journal in the JSON form that Perfetto shows.
    Perfetto,
}

/// The answer to the request, with these bytes as the input.
pub fn export(alloc: Global, request: ExportRequest, bytes: &[u8]) -> Result<Answer, OutOfMemory> {
    if request == ExportRequest::Schema {
        return Ok(Answer::done(alloc, String::from_str(alloc, SCHEMA)?));
    }
    match read_report(alloc, bytes) {
        Ok((setup, journal, audit)) => export_of(alloc, request, &setup, &journal, &audit),
        Err(error) => no_report(alloc, bytes, error),
    }
}

// The answer to a request on a report of these parts.
fn export_of(
    alloc: Global,
    request: ExportRequest,
    setup: &Setup,
    journal: &Journal,
    audit: &Audit,
) -> Result<Answer, OutOfMemory> {
    let text = match request {
        ExportRequest::Json => {
            let all = Range {
                from: 0,
                to: journal.len(),
            };
            json_lines(alloc, setup, journal, all, audit)?
        }
        ExportRequest::Schema => String::from_str(alloc, SCHEMA)?,
        ExportRequest::Mermaid { from, to } => {
            let Some(range) = range_of(journal.len(), from, to) else {
                return none_such(alloc, journal.len(), from, to);
            };
            let all = Shown {
                kernels: Vec::new(alloc),
            };
            mermaid(alloc, &chart_of(alloc, setup, journal, range, &all)?)?
        }
        ExportRequest::Perfetto => perfetto(alloc, setup, journal)?,
    };
    Ok(Answer::done(alloc, text))
}

// The message that there are no such entries among that many.
fn none_such(
    alloc: Global,
    count: usize,
    from: Option<u64>,
    to: Option<u64>,
) -> Result<Answer, OutOfMemory> {
    let from = from.unwrap_or(0);
    let text = match to {
        Some(to) if from > to => format!(in alloc; "--from {from} is behind --to {to}\n")?,
        _ => format!(in alloc; "there are no such entries: the report has {count}, from 0 on\n")?,
    };
    Ok(Answer::failed(alloc, Ending::WrongWords, text))
}

// The named entries, out of that many; none if there are no such entries.
fn range_of(entries: usize, from: Option<u64>, to: Option<u64>) -> Option<Range> {
    let from = from.unwrap_or(0);
    let last = to.unwrap_or(u64::MAX);
    let end = last.saturating_add(1).min(entries as u64);
    if from > last || from > end {
        return None;
    }
    Some(Range {
        from: from as usize,
        to: end as usize,
    })
}

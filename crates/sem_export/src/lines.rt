// A report as lines of JSON.
use crate::audits::AuditLine;
use crate::entries::EntryLine;
use crate::setups::SetupLine;
use crate::words::text_of;
use sem_chart::Range;
use sem_journal::push_entry;
use sem_key::OutOfMemory;
use sem_msg::{Audit, Journal, Setup};
use serde::{Described, Serialize};
use std::alloc::Global;

/// One object a line: what is declared, each entry of the range, and the audit.
pub fn json_lines(
    alloc: Global,
    setup: &Setup,
    journal: &Journal,
    range: Range,
    audit: &Audit,
) -> Result<String, OutOfMemory> {
    let mut out = String::new(alloc);
    push_line(alloc, &mut out, &SetupLine::of(alloc, setup)?)?;
    for (number, entry) in journal.as_slice().iter().enumerate() {
        if range.from <= number && number < range.to {
            push_line(alloc, &mut out, &EntryLine::of(alloc, number, entry)?)?;
        }
    }
    push_line(alloc, &mut out, &AuditLine::of(alloc, audit)?)?;
    Ok(out)
}

// Appends the line. Writing one of its types fails only for lack of memory.
fn push_line<T: Serialize>(alloc: Global, out: &mut String, line: &T) -> Result<(), OutOfMemory> {
    match serde_json::to_string(alloc, line) {
        Ok(text) => out.push_str(text.as_str())?,
        Err(_) => return Err(OutOfMemory),
    }
    out.push('\n')
}

/// The lines of the entries of the range, as the report has them.
pub fn told_lines(alloc: Global, journal: &Journal, range: Range) -> Result<String, OutOfMemory> {
    let mut bytes = Vec::new(alloc);
    for (number, entry) in journal.as_slice().iter().enumerate() {
        if range.from <= number && number < range.to {
            push_entry(&mut bytes, entry)?;
        }
    }
    text_of(alloc, bytes.as_slice())
}

// The logs, as they are read.
use crate::refusals::{no_entry_text, no_trace_text};
use sem_journal::read_entry;
use sem_key::OutOfMemory;
use sem_msg::{Entry, Journal, Setup};
use sem_reader::read_trace;
use sem_trace::{LineFault, Lines, TraceError, bytes_fault, is, is_significant, next_word};
use std::alloc::Global;

/// What a trace declares, and the entries after it in the order of their lines, each with the
/// number of its line.
#[derive(Debug, Drop)]
pub struct Logs {
    pub setup: Setup,
    pub journal: Journal,
    pub lines: Vec<u64>,
}

/// The logs in these bytes, or why the first bad line is refused.
pub fn read_logs(alloc: Global, bytes: &[u8]) -> Result<Result<Logs, String>, OutOfMemory> {
    let (lines, size) = trace_end(bytes);
    let (trace, behind) = bytes.split_at(size.min(bytes.len()));
    match read_trace(alloc, trace) {
        Ok(setup) => read_entries(alloc, setup, behind, lines),
        Err(TraceError::Refused(fault)) => Ok(Err(no_trace_text(alloc, trace, &fault)?)),
        Err(TraceError::Memory) => Err(OutOfMemory),
    }
}

// How many lines and how many bytes the trace has. It ends with the first line whose first word is
// `end`, or with the text.
fn trace_end(bytes: &[u8]) -> (u64, usize) {
    let mut lines = Lines::of(bytes);
    let mut count = 0u64;
    let mut size = 0usize;
    for _ in 0..bytes.len() {
        let Some(line) = lines.next_line() else {
            break;
        };
        count = count.saturating_add(1);
        size = size.saturating_add(line.len()).saturating_add(1);
        if is_end(line) {
            break;
        }
    }
    (count, size)
}

// Whether the line ends a trace.
fn is_end(line: &[u8]) -> bool {
    match next_word(line) {
        Some((word, _)) => is(word, b"end"),
        None => false,
    }
}

// The entries in the text after a trace of that many lines.
fn read_entries(
    alloc: Global,
    setup: Setup,
    text: &[u8],
    before: u64,
) -> Result<Result<Logs, String>, OutOfMemory> {
    let mut journal = Journal::new(alloc);
    let mut numbers = Vec::new(alloc);
    let mut number = before;
    let mut lines = Lines::of(text);
    for _ in 0..text.len() {
        let Some(line) = lines.next_line() else {
            break;
        };
        number = number.saturating_add(1);
        match entry_in(&setup, line) {
            Ok(Some(entry)) => {
                journal.room(1)?;
                journal.push(entry);
                numbers.push(number)?;
            }
            Ok(None) => {}
            Err(fault) => return Ok(Err(no_entry_text(alloc, &setup, line, number, &fault)?)),
        }
    }
    Ok(Ok(Logs {
        setup,
        journal,
        lines: numbers,
    }))
}

// The entry that the line tells, in any spelling; none if the line says nothing.
fn entry_in(setup: &Setup, line: &[u8]) -> Result<Option<Entry>, LineFault> {
    if let Some(cause) = bytes_fault(line) {
        return Err(LineFault { cause, word: None });
    }
    if !is_significant(line) {
        return Ok(None);
    }
    match read_entry(line, setup.version, setup.kernels.max(1)) {
        Ok(entry) => Ok(Some(entry)),
        Err(fault) => Err(fault),
    }
}

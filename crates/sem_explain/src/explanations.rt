// Why a trace, a report or file commands are refused.
use crate::texts::{push_entry, push_numbered, push_shown, text_of_line};
use sem_draw::{Answer, Ending};
use sem_files::read_files;
use sem_hint::{TextKind, refusal_text};
use sem_key::OutOfMemory;
use sem_msg::{Audit, Entry};
use sem_reader::read_trace;
use sem_report::{Verdict, push_audit};
use sem_trace::{Lines, TraceError, TraceFault};
use std::alloc::Global;

/// How many entries come before the wrong one.
const BEFORE: usize = 5;

/// Why these bytes, a trace, are refused, or that they are accepted. A refusal is explained on
/// standard output.
pub fn explain_trace(alloc: Global, bytes: &[u8]) -> Result<Answer, OutOfMemory> {
    match read_trace(alloc, bytes) {
        Ok(_) => accepted(alloc, "the trace is accepted\n"),
        Err(TraceError::Refused(fault)) => {
            explain_text(
                alloc,
                bytes,
                "the trace is refused: ",
                &fault,
                TextKind::Trace,
            )
        }
        Err(TraceError::Memory) => Err(OutOfMemory),
    }
}

/// Why these bytes, file commands, are refused, or that they are accepted. A refusal is explained
/// on standard output.
pub fn explain_files(alloc: Global, bytes: &[u8]) -> Result<Answer, OutOfMemory> {
    match read_files(alloc, bytes) {
        Ok(_) => accepted(alloc, "the file commands are accepted\n"),
        Err(TraceError::Refused(fault)) => explain_text(
            alloc,
            bytes,
            "the file commands are refused: ",
            &fault,
            TextKind::Files,
        ),
        Err(TraceError::Memory) => Err(OutOfMemory),
    }
}

/// Why these bytes, a report with this verdict, are refused, or that they are accepted. A refusal
/// is explained on standard output.
pub fn explain_report(
    alloc: Global,
    bytes: &[u8],
    verdict: &Verdict,
) -> Result<Answer, OutOfMemory> {
    let out = match verdict {
        Verdict::Accepted { .. } => {
            return accepted(
                alloc,
                "the report is accepted: it is that of a complete schedule\n",
            );
        }
        Verdict::BadLine { fault } => {
            return explain_text(
                alloc,
                bytes,
                "the report is refused: ",
                fault,
                TextKind::Report,
            );
        }
        Verdict::BadEntry {
            journal,
            entry,
            entered,
            replayed,
        } => differing_text(alloc, journal.as_slice(), *entry, (entered, replayed))?,
        Verdict::NotOver { journal, next } => going_on_text(alloc, journal.as_slice(), next)?,
        Verdict::BadAudit { line, due } => audit_text(alloc, bytes, *line, due)?,
    };
    Ok(refused(alloc, out))
}

// The answer that the input is accepted.
fn accepted(alloc: Global, text: &str) -> Result<Answer, OutOfMemory> {
    Ok(Answer::done(alloc, String::from_str(alloc, text)?))
}

// An explanation of why the input is refused.
fn refused(alloc: Global, out: String) -> Answer {
    Answer {
        ending: Ending::Refused,
        out,
        error: String::new(alloc),
    }
}

// Why a text is refused at one of its lines.
fn explain_text(
    alloc: Global,
    bytes: &[u8],
    begin: &str,
    fault: &TraceFault,
    kind: TextKind,
) -> Result<Answer, OutOfMemory> {
    let mut out = String::from_str(alloc, begin)?;
    out.push_str(refusal_text(alloc, bytes, fault, kind)?.as_str())?;
    Ok(refused(alloc, out))
}

// A line of the report in which the told audit differs from the due one, and the due line.
fn audit_text(alloc: Global, bytes: &[u8], line: u64, due: &Audit) -> Result<String, OutOfMemory> {
    let mut out = format!(in alloc;
        "the report is refused: line {line} is not that of the audit of this journal\n"
    )?;
    let told = text_of_line(alloc, bytes, line)?;
    push_shown(&mut out, "report", told.as_str())?;
    let mut audit = Vec::new(alloc);
    push_audit(&mut audit, due)?;
    let place = line.saturating_sub(lines_before_audit(bytes));
    let wanted = text_of_line(alloc, audit.as_slice(), place)?;
    push_shown(&mut out, "machine", wanted.as_str())?;
    Ok(out)
}

// How many lines come before the audit of a report; all if it has none.
fn lines_before_audit(bytes: &[u8]) -> u64 {
    let mut lines = Lines::of(bytes);
    let most = bytes.len() as u64;
    for count in 0..most {
        match lines.next_line() {
            Some(b"audit") | None => return count,
            Some(_) => {}
        }
    }
    most
}

// An entry that its event does not make, and the one that the event makes, if it is enabled.
fn differing_text(
    alloc: Global,
    entries: &[Entry],
    number: u64,
    found: (&Entry, &Option<Entry>),
) -> Result<String, OutOfMemory> {
    let (entered, replayed) = found;
    let mut out = format!(in alloc;
        "the report is refused: entry {number} is not the one that the machine makes\n"
    )?;
    push_before(alloc, &mut out, entries, number as usize)?;
    push_entry(alloc, &mut out, "report", number, entered)?;
    match replayed {
        Some(made) => push_entry(alloc, &mut out, "machine", number, made)?,
        None => push_numbered(
            alloc,
            &mut out,
            "machine",
            number,
            "(the event is not enabled here)",
        )?,
    }
    Ok(out)
}

// That the machine goes on after the entries, and how.
fn going_on_text(alloc: Global, entries: &[Entry], next: &Entry) -> Result<String, OutOfMemory> {
    let count = entries.len();
    let mut out = format!(in alloc;
        "the report is refused: the journal ends after {count} entries, and the machine goes on\n"
    )?;
    push_before(alloc, &mut out, entries, count)?;
    push_entry(alloc, &mut out, "machine", count as u64, next)?;
    Ok(out)
}

// Appends the entries before the one of that number.
fn push_before(
    alloc: Global,
    out: &mut String,
    entries: &[Entry],
    number: usize,
) -> Result<(), OutOfMemory> {
    let first = number.saturating_sub(BEFORE);
    for (at, entry) in entries.iter().enumerate() {
        if first <= at && at < number {
            push_entry(alloc, out, "", at as u64, entry)?;
        }
    }
    Ok(())
}

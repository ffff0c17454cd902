// Two reports of one trace, compared.
use crate::data::{CallEnd, HeldKey, Outcome};
use crate::endings::told_outcome;
use crate::reports::as_text;
use sem_draw::{Answer, Ending};
use sem_hint::{TextKind, refusal_text};
use sem_journal::print_entry;
use sem_key::OutOfMemory;
use sem_msg::{Audit, Entry, Journal, Setup};
use sem_report::read_report;
use sem_trace::{TraceError, print_trace};
use std::alloc::Global;

/// A report that was read.
#[derive(Debug, Drop)]
struct Report {
    setup: Setup,
    journal: Journal,
    audit: Audit,
}

/// The differences of two reports of one trace: their first different entries, the ends of calls,
/// and the held keys. The first report is named A, the other B.
pub fn report_differences(alloc: Global, one: &[u8], other: &[u8]) -> Result<Answer, OutOfMemory> {
    let one = match read(alloc, "A", one)? {
        Ok(report) => report,
        Err(why) => return Ok(Answer::failed(alloc, Ending::Refused, why)),
    };
    match read(alloc, "B", other)? {
        Ok(other) => compared(alloc, &one, &other),
        Err(why) => Ok(Answer::failed(alloc, Ending::Refused, why)),
    }
}

// The report, or why the text of that name is none.
fn read(alloc: Global, name: &str, bytes: &[u8]) -> Result<Result<Report, String>, OutOfMemory> {
    match read_report(alloc, bytes) {
        Ok((setup, journal, audit)) => Ok(Ok(Report {
            setup,
            journal,
            audit,
        })),
        Err(TraceError::Refused(fault)) => {
            let mut text = format!(in alloc; "{name} is no report: ")?;
            let why = refusal_text(alloc, bytes, &fault, TextKind::Report)?;
            text.push_str(why.as_str())?;
            Ok(Err(text))
        }
        Err(TraceError::Memory) => Err(OutOfMemory),
    }
}

// The differences of the two reports.
fn compared(alloc: Global, one: &Report, other: &Report) -> Result<Answer, OutOfMemory> {
    if !is_same_trace(alloc, &one.setup, &other.setup)? {
        let text = String::from_str(alloc, "A and B are reports of two traces\n")?;
        return Ok(Answer::failed(alloc, Ending::WrongWords, text));
    }
    let mut out = String::new(alloc);
    push_entries(
        alloc,
        &mut out,
        one.journal.as_slice(),
        other.journal.as_slice(),
    )?;
    let (first, second) = (ending_of(alloc, one)?, ending_of(alloc, other)?);
    push_calls(alloc, &mut out, &first, &second)?;
    push_only(alloc, &mut out, "A", &first, &second)?;
    push_only(alloc, &mut out, "B", &second, &first)?;
    Ok(Answer::done(alloc, out))
}

// Whether the two setups are the same trace.
fn is_same_trace(alloc: Global, one: &Setup, other: &Setup) -> Result<bool, OutOfMemory> {
    let mut first = Vec::new(alloc);
    print_trace(alloc, one, &mut first)?;
    let mut second = Vec::new(alloc);
    print_trace(alloc, other, &mut second)?;
    Ok(first == second)
}

// Appends how many first entries are equal in both, and the next entry of each.
fn push_entries(
    alloc: Global,
    out: &mut String,
    one: &[Entry],
    other: &[Entry],
) -> Result<(), OutOfMemory> {
    let alike = alike_count(one, other);
    if alike == one.len() && alike == other.len() {
        let text = format!(in alloc; "all {alike} entries are the same\n")?;
        return out.push_str(text.as_str());
    }
    let text = match alike {
        1 => String::from_str(alloc, "the first entry is the same\n")?,
        _ => format!(in alloc; "the first {alike} entries are the same\n")?,
    };
    out.push_str(text.as_str())?;
    push_entry(alloc, out, "A", one, alike)?;
    push_entry(alloc, out, "B", other, alike)
}

// How many first entries are equal in both.
fn alike_count(one: &[Entry], other: &[Entry]) -> usize {
    let mut count = 0usize;
    for (entry, beside) in one.iter().zip(other.iter()) {
        if entry != beside {
            return count;
        }
        count = count.saturating_add(1);
    }
    count
}

// Appends the entry of that number of a report, or that there is none.
fn push_entry(
    alloc: Global,
    out: &mut String,
    name: &str,
    entries: &[Entry],
    number: usize,
) -> Result<(), OutOfMemory> {
    let Some(entry) = entries.get(number) else {
        let text = format!(in alloc; "{name} ends there\n")?;
        return out.push_str(text.as_str());
    };
    let text = format!(in alloc; "entry {number} of {name}: ")?;
    out.push_str(text.as_str())?;
    let mut bytes = Vec::new(alloc);
    print_entry(alloc, entry, &mut bytes)?;
    out.push_str(as_text(alloc, bytes.as_slice())?.as_str())
}

// The outcome of the report's run.
fn ending_of(alloc: Global, report: &Report) -> Result<Outcome, OutOfMemory> {
    let mut codes = Vec::new(alloc);
    for decl in report.setup.vpes.as_slice() {
        codes.push(codes_to(alloc, report.journal.as_slice(), decl.vpe)?)?;
    }
    let ending = (codes.as_slice(), report.audit.held.as_slice());
    told_outcome(alloc, &report.setup, ending, 1, None)
}

// The codes of the replies to the VPE, in order.
fn codes_to(alloc: Global, entries: &[Entry], vpe: u16) -> Result<Vec<u8>, OutOfMemory> {
    let mut codes = Vec::new(alloc);
    for entry in entries {
        if let Some(reply) = entry.reply {
            if reply.vpe == vpe {
                codes.push(reply.code)?;
            }
        }
    }
    Ok(codes)
}

// Appends a line for each call that ended differently.
fn push_calls(
    alloc: Global,
    out: &mut String,
    one: &Outcome,
    other: &Outcome,
) -> Result<(), OutOfMemory> {
    for (end, beside) in one.calls.iter().zip(other.calls.iter()) {
        if end != beside {
            push_call(alloc, out, end, beside)?;
        }
    }
    Ok(())
}

// Appends how a call ended in each of the two reports.
fn push_call(
    alloc: Global,
    out: &mut String,
    end: &CallEnd,
    beside: &CallEnd,
) -> Result<(), OutOfMemory> {
    let (vpe, call, words) = (end.vpe, end.call, end.words.as_str());
    let (first, second) = (code_text(end), code_text(beside));
    let text = format!(in alloc; "v{vpe} call {call}: {words}: {first} in A, {second} in B\n")?;
    out.push_str(text.as_str())
}

// The name of the code of a call.
fn code_text(end: &CallEnd) -> &str {
    match &end.code {
        Some(code) => code.as_str(),
        None => "no reply",
    }
}

// Appends a line for each capability that is held only in the report of that name.
fn push_only(
    alloc: Global,
    out: &mut String,
    name: &str,
    one: &Outcome,
    other: &Outcome,
) -> Result<(), OutOfMemory> {
    for held in one.held.as_slice() {
        if !other.held.contains(held) {
            push_held(alloc, out, name, held)?;
        }
    }
    Ok(())
}

// Appends that a capability is held only in the report of that name.
fn push_held(
    alloc: Global,
    out: &mut String,
    name: &str,
    held: &HeldKey,
) -> Result<(), OutOfMemory> {
    let (key, selector) = (held.key.as_str(), held.selector);
    let text = format!(in alloc; "only {name} holds {key}, at selector {selector}\n")?;
    out.push_str(text.as_str())
}

// Why a line of the logs is refused, in words.
use sem_hint::{TextKind, refusal_text};
use sem_key::OutOfMemory;
use sem_msg::Setup;
use sem_trace::{LineFault, TraceFault};
use std::alloc::Global;

/// The lines of the report before its entry.
const LINES_BEFORE: u64 = 4;

/// Why the text before the logs is no trace.
pub fn no_trace_text(
    alloc: Global,
    trace: &[u8],
    fault: &TraceFault,
) -> Result<String, OutOfMemory> {
    let mut out = String::from_str(alloc, "the logs begin with no trace: ")?;
    out.push_str(refusal_text(alloc, trace, fault, TextKind::Trace)?.as_str())?;
    Ok(out)
}

/// Why the line of that number is no entry.
pub fn no_entry_text(
    alloc: Global,
    setup: &Setup,
    line: &[u8],
    number: u64,
    refused: &LineFault,
) -> Result<String, OutOfMemory> {
    let report = report_of(alloc, setup, line)?;
    let fault = TraceFault {
        line: LINES_BEFORE.saturating_add(1),
        word: refused.word,
        cause: refused.cause,
    };
    let told = refusal_text(alloc, report.as_slice(), &fault, TextKind::Report)?;
    let said = told
        .as_str()
        .strip_prefix("line 5")
        .unwrap_or(told.as_str());
    format!(in alloc; "the logs are refused: line {number}{said}")
}

// A report with that line as its entry: only the parts that decide what can stand in an entry.
fn report_of(alloc: Global, setup: &Setup, line: &[u8]) -> Result<Vec<u8>, OutOfMemory> {
    let (version, kernels) = (setup.version, setup.kernels);
    let head = format!(in alloc; "semper report {version}\nkernels {kernels}\nend\njournal 1\n")?;
    let mut report = Vec::new(alloc);
    report.extend_from_slice(head.as_bytes())?;
    report.extend_from_slice(line)?;
    Ok(report)
}

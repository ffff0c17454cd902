// Why an input is refused, in one line of words.
use sem_cli::Command;
use sem_files::read_files;
use sem_hint::{TextKind, no_report_text, refusal_text};
use sem_key::OutOfMemory;
use sem_reader::read_trace;
use sem_report::read_report;
use sem_trace::TraceError;
use std::alloc::Global;

/// Why the command refuses the bytes, which are the whole input: the line, the word in question and
/// what belongs there. None if no single line is at fault.
pub fn refusal_line(
    alloc: Global,
    command: Command,
    bytes: &[u8],
) -> Result<Option<String>, OutOfMemory> {
    let (begin, told) = match command {
        Command::Run { .. } | Command::Threads { .. } => {
            ("the input is refused: ", trace_refusal(alloc, bytes)?)
        }
        Command::Files { .. } => ("the input is refused: ", files_refusal(alloc, bytes)?),
        Command::Ask { .. } => ("", report_refusal(alloc, bytes)?),
        Command::Generate { .. } | Command::Soak { .. } => ("", None),
    };
    match told {
        Some(text) => {
            let mut line = String::from_str(alloc, begin)?;
            line.push_str(first_line(text.as_str()))?;
            Ok(Some(line))
        }
        None => Ok(None),
    }
}

// Why a trace is refused, if it is.
fn trace_refusal(alloc: Global, bytes: &[u8]) -> Result<Option<String>, OutOfMemory> {
    match read_trace(alloc, bytes) {
        Ok(_) => Ok(None),
        Err(TraceError::Refused(fault)) => {
            Ok(Some(refusal_text(alloc, bytes, &fault, TextKind::Trace)?))
        }
        Err(TraceError::Memory) => Err(OutOfMemory),
    }
}

// Why file commands are refused, if they are.
fn files_refusal(alloc: Global, bytes: &[u8]) -> Result<Option<String>, OutOfMemory> {
    match read_files(alloc, bytes) {
        Ok(_) => Ok(None),
        Err(TraceError::Refused(fault)) => {
            Ok(Some(refusal_text(alloc, bytes, &fault, TextKind::Files)?))
        }
        Err(TraceError::Memory) => Err(OutOfMemory),
    }
}

// Why a text is no report, if it is none.
fn report_refusal(alloc: Global, bytes: &[u8]) -> Result<Option<String>, OutOfMemory> {
    match read_report(alloc, bytes) {
        Ok(_) => Ok(None),
        Err(TraceError::Refused(fault)) => Ok(Some(no_report_text(alloc, bytes, &fault)?)),
        Err(TraceError::Memory) => Err(OutOfMemory),
    }
}

// The text up to the end of its first line.
fn first_line(text: &str) -> &str {
    match text.split('\n').next() {
        Some(line) => line,
        None => text,
    }
}

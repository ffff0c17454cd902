// The program between its process and the top call.
ghost use Rattle.std.specs.Prelude.{◌≡◌};
ghost use Rattle.std.specs.Process.{exit_status};
ghost use Rattle.sem_cli.specs.Statuses.{status_number};

use crate::refusals::refusal_line;
use crate::top::semper;
use crate::usage::usage_fault;
use sem_cli::{Status, command};
use sem_io::{KeptSource, ReadSource, WriteSink};
use sem_msg::Journal;
use sem_node::OpenGate;
use std::alloc::{AllocError as OutOfMemory, Global};
use std::env;
use std::io::ErrorKind;
use std::process::ExitCode;
use std::sync::Wait;
use std::thread::Threads;

// The most bytes of an input of which standard error tells why it is refused.
const KEPT: usize = 65536;

/// The program: its words, standard input and standard output, and its exit status. If it could not
/// do what it was asked for, one line on standard error says why: what failed, which word of the
/// command line is wrong, or which word of the input. The second handle is that of its threads.
pub fn program<R: Threads + Wait + Sync>(rt: &HostRuntime, threads: &R) -> ExitCode {
    let mut input = KeptSource::new(rt.alloc(), ReadSource::new(rt.stdin()), KEPT);
    let mut out = WriteSink::new(rt.stdout());
    let mut journal = Journal::new(rt.alloc());
    let words = match words(rt) {
        Ok(words) => words,
        Err(OutOfMemory) => {
            tell(rt, "out of memory");
            return exit_code(Status::Memory);
        }
    };
    let none = Vec::new(rt.alloc());
    let status = semper(
        threads,
        rt.alloc(),
        words.as_ref().unwrap_or(&none),
        &mut input,
        &mut out,
        &OpenGate,
        &mut journal,
    );
    match detail(rt.alloc(), status, words.as_ref(), input.kept()) {
        Ok(Some(line)) => tell(rt, line.as_str()),
        Ok(None) | Err(OutOfMemory) => {
            if let Some(line) = reason(status) {
                tell(rt, line);
            }
        }
    }
    exit_code(status)
}

// Writes the line to standard error. If that fails too, only the exit status tells it.
fn tell(rt: &HostRuntime, line: &str) {
    let _ = eprintln!(rt; "semper: {line}");
}

// The words after the program's name; none if a word is no text.
fn words(rt: &HostRuntime) -> Result<Option<Vec<String>>, OutOfMemory> {
    match env::args(rt) {
        Ok(words) => Ok(Some(words.skip(1).collect(rt.alloc())?)),
        Err(fault) if fault.kind() == ErrorKind::OutOfMemory => Err(OutOfMemory),
        Err(_) => Ok(None),
    }
}

// Why the program ended so, in general; none if it did what it was asked for.
fn reason(status: Status) -> Option<&'static str> {
    match status {
        Status::Done => None,
        Status::Usage => Some("these words are no command"),
        Status::ReadFault => Some("the input could not be read"),
        Status::WriteFault => Some("the output could not be written"),
        Status::Memory => Some("out of memory"),
        Status::TraceRefused => Some(
            "the input is refused; semper-view explain tells why, in words",
        ),
        Status::ReportRefused => Some(
            "the report is refused; semper-view explain tells why, in words",
        ),
    }
}

// Which word is wrong, of the command line or of the input, if that can be told. There are no words
// if one of them is no text, and no bytes if the input was not kept.
fn detail(
    alloc: Global,
    status: Status,
    words: Option<&Vec<String>>,
    bytes: Option<&[u8]>,
) -> Result<Option<String>, OutOfMemory> {
    let Some(words) = words else {
        return Ok(Some(String::from_str(alloc, "a word is no text")?));
    };
    match (status, bytes, command(words)) {
        (Status::Usage, _, _) => Ok(Some(usage_fault(alloc, words)?)),
        (Status::TraceRefused | Status::ReportRefused, Some(bytes), Some(command)) => {
            match refusal_line(alloc, command, bytes)? {
                Some(line) => Ok(Some(format!(in alloc;
                    "{line} (semper-view explain shows more)"
                )?)),
                None => Ok(None),
            }
        }
        _ => Ok(None),
    }
}

// The exit status of the program.
fn exit_code(status: Status) -> ExitCode
    ensures { exit_status result ≡ status_number status }
{
    ExitCode::from(status.number())
}

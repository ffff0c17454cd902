//! The program `semper-view`: its words, standard input, and what it writes to standard output and
//! standard error.
#![tactic(auto)]

ghost use Rattle.std.specs.Prelude.{◌≤◌, length};

mod files;
mod pages;
mod progress;
mod searching;
mod words;

use crate::files::{FileFault, diff, merge};
use crate::pages::page;
use crate::progress::Shown;
use crate::searching::outcomes;
use crate::words::{Asked, read_words};
use clap::error::ErrorKind;
use sem_assemble::assemble;
use sem_draw::{Answer, Ending};
use sem_explain::{explain_files, explain_report, explain_trace};
use sem_export::export;
use sem_hint::{TextKind, kind_of};
use sem_io::{ReadError, ReadSource, WriteSink, read_all, write_all};
use sem_listing::listing;
use sem_run::judge;
use sem_story::story;
use sem_tree::tree;
use sem_view::respond;
use sem_writers::memory_picture;
use std::alloc::{AllocError, Global};
use std::env;
use std::process::ExitCode;

/// The most bytes of an input.
const MOST_BYTES: usize = 134_217_728;

/// The exit status if the program was not able to do what was asked.
const FAULT: u8 = 3;

fn main(rt: HostRuntime) -> ExitCode {
    let words: Vec<String> = match env::args(&rt) {
        Ok(words) => match words.skip(1).collect(rt.alloc()) {
            Ok(words) => words,
            Err(_) => return fault(&rt, "out of memory"),
        },
        Err(_) => return fault(&rt, "a word is no text"),
    };
    match read_words(rt.alloc(), words.as_slice()) {
        Ok(asked) => answer(&rt, &asked),
        Err(error) => {
            if error.kind() == ErrorKind::OutOfMemory {
                return fault(&rt, "out of memory");
            }
            if error.print(&rt).is_err() {
                return ExitCode::from(FAULT);
            }
            if error.kind() == ErrorKind::UnknownArgument {
                let _ = eprintln!(rt; "The input is read from standard input, as by < FILE.");
            }
            ExitCode::from(if error.use_stderr() { 2 } else { 0 })
        }
    }
}

// Reads the input of the request, and writes the answer.
fn answer(rt: &HostRuntime, asked: &Asked) -> ExitCode {
    match asked {
        Asked::Merge { files, is_json } => {
            write_found(rt, merge(rt, files.as_slice(), *is_json))
        }
        Asked::Diff { one, other } => write_found(rt, diff(rt, one.as_str(), other.as_str())),
        _ => answer_on_input(rt, asked),
    }
}

// Writes the answer to a request about files, if there is one.
fn write_found(rt: &HostRuntime, found: Result<Answer, FileFault>) -> ExitCode {
    match found {
        Ok(answer) => write(rt, &answer),
        Err(FileFault::Unread) => ExitCode::from(FAULT),
        Err(FileFault::Memory) => fault(rt, "out of memory"),
    }
}

// Reads the input, and writes the answer to the request about it.
fn answer_on_input(rt: &HostRuntime, asked: &Asked) -> ExitCode {
    let mut input = ReadSource::new(rt.stdin());
    let bytes = match read_all(rt.alloc(), &mut input, MOST_BYTES) {
        Ok(bytes) => bytes,
        Err(ReadError::Fault) => return fault(rt, "the input could not be read"),
        Err(ReadError::Memory) => return fault(rt, "out of memory"),
    };
    match answer_to(rt, asked, bytes.as_slice()) {
        Ok(answer) => write(rt, &answer),
        Err(AllocError) => fault(rt, "out of memory"),
    }
}

// The answer to the request, with these bytes as the input.
fn answer_to(rt: &HostRuntime, asked: &Asked, bytes: &[u8]) -> Result<Answer, AllocError>
    requires few { length bytes.now ≤ 134217729 }
{
    let alloc = rt.alloc();
    match asked {
        Asked::View { request } => respond(alloc, request, bytes),
        Asked::Tree { request } => tree(alloc, request, bytes),
        Asked::Memory { request } => memory_picture(alloc, request, bytes),
        Asked::Story { request } => story(alloc, request, bytes),
        Asked::Export { request } => export(alloc, *request, bytes),
        Asked::Page { from, to } => page(alloc, *from, *to, bytes),
        Asked::Files => listing(alloc, bytes),
        Asked::Assemble => assemble(alloc, bytes),
        Asked::Outcomes { search, telling } => {
            let mut shown = Shown::new(rt);
            let answer = outcomes(alloc, *search, *telling, bytes, &mut shown);
            shown.clear();
            answer
        }
        Asked::Explain | Asked::Merge { .. } | Asked::Diff { .. } => explain(alloc, bytes),
    }
}

// Why these bytes, a trace, a report or file commands, are refused, or that they are accepted.
// Their first line that says something tells which of these they are.
fn explain(alloc: Global, bytes: &[u8]) -> Result<Answer, AllocError>
    requires few { length bytes.now ≤ 134217729 }
{
    match kind_of(alloc, bytes)? {
        TextKind::Trace => explain_trace(alloc, bytes),
        TextKind::Files => explain_files(alloc, bytes),
        TextKind::Report => {
            let verdict = judge(alloc, bytes)?;
            explain_report(alloc, bytes, &verdict)
        }
    }
}

// Writes the answer.
fn write(rt: &HostRuntime, answer: &Answer) -> ExitCode {
    let mut out = WriteSink::new(rt.stdout());
    if write_all(&mut out, answer.out.as_bytes()).is_err() {
        return fault(rt, "the output could not be written");
    }
    let mut error = WriteSink::new(rt.stderr());
    if write_all(&mut error, answer.error.as_bytes()).is_err() {
        return ExitCode::from(FAULT);
    }
    ExitCode::from(match answer.ending {
        Ending::Done => 0,
        Ending::Refused => 1,
        Ending::WrongWords => 2,
    })
}

// Writes to standard error why the program could not do what was asked.
fn fault(rt: &HostRuntime, text: &str) -> ExitCode {
    let _ = eprintln!(rt; "semper-view: {text}");
    ExitCode::from(FAULT)
}

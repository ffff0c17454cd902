// The text of a listing.
use crate::commands::{Opened, push_command};
use sem_draw::{Answer, Ending};
use sem_files::{Files, read_files};
use sem_fs::compile;
use sem_hint::{TextKind, refusal_text};
use sem_key::OutOfMemory;
use sem_msg::{Call, Root, Setup, VpeDecl};
use sem_trace::{Lines, TraceError, next_word, push_call, push_trace};
use std::alloc::Global;

/// The most extents of a file.
const EXTENTS: u8 = 4;

/// The trace that these bytes, file commands, compile to, each command above its calls. If they are
/// refused, standard error tells why.
pub fn listing(alloc: Global, bytes: &[u8]) -> Result<Answer, OutOfMemory> {
    match read_files(alloc, bytes) {
        Ok(files) => {
            let setup = compile(alloc, &files)?;
            Ok(Answer::done(alloc, listing_text(alloc, &files, &setup)?))
        }
        Err(TraceError::Refused(fault)) => {
            let mut error = String::from_str(alloc, "the file commands are refused: ")?;
            error.push_str(refusal_text(alloc, bytes, &fault, TextKind::Files)?.as_str())?;
            Ok(Answer {
                ending: Ending::Refused,
                out: String::new(alloc),
                error,
            })
        }
        Err(TraceError::Memory) => Err(OutOfMemory),
    }
}

// The canonical text of the setup, with comments.
fn listing_text(alloc: Global, files: &Files, setup: &Setup) -> Result<String, OutOfMemory> {
    let mut out = String::new(alloc);
    push_declarations(alloc, &mut out, setup)?;
    for declared in setup.vpes.as_slice() {
        push_client(alloc, &mut out, files, declared)?;
    }
    out.push_str("end\n")?;
    Ok(out)
}

// Appends the lines of the setup before its calls, each extent with the file that it belongs to.
fn push_declarations(alloc: Global, out: &mut String, setup: &Setup) -> Result<(), OutOfMemory> {
    let mut text = Vec::new(alloc);
    push_trace(&mut text, setup)?;
    let mut roots = Vec::new(alloc);
    for declared in setup.vpes.as_slice() {
        for root in declared.roots.as_slice() {
            roots.push(*root)?;
        }
    }
    let mut place = 0;
    let mut lines = Lines::of(&text);
    for _ in 0..text.len() {
        let Some(line) = lines.next_line() else {
            return Ok(());
        };
        match first_word(line) {
            b"call" | b"end" => return Ok(()),
            b"service" => {
                out.push_str("# the service\n")?;
                place = 1;
            }
            b"root" => {
                push_extent(alloc, out, roots.as_slice().get(place))?;
                place = place.saturating_add(1);
            }
            _ => {}
        }
        push_line(out, line)?;
    }
    Ok(())
}

fn first_word(line: &[u8]) -> &[u8] {
    match next_word(line) {
        Some((word, _)) => word,
        None => b"",
    }
}

// Appends the extent that a root is, and its file.
fn push_extent(alloc: Global, out: &mut String, root: Option<&Root>) -> Result<(), OutOfMemory> {
    let Some(root) = root else {
        return Ok(());
    };
    let number = root.sel.saturating_sub(1);
    let (file, extent) = (number / EXTENTS, number % EXTENTS);
    let text = format!(in alloc; "# extent {extent} of file {file}\n")?;
    out.push_str(text.as_str())
}

// Appends a line.
fn push_line(out: &mut String, line: &[u8]) -> Result<(), OutOfMemory> {
    for byte in line {
        out.push(char::from(*byte))?;
    }
    out.push('\n')
}

// Appends the calls of a client, each command above those that it compiles to.
fn push_client(
    alloc: Global,
    out: &mut String,
    files: &Files,
    declared: &VpeDecl,
) -> Result<(), OutOfMemory> {
    let calls = declared.calls.as_slice();
    let Some(first) = calls.first() else {
        return Ok(());
    };
    let client = declared.vpe;
    let head = format!(in alloc; "# client {client} opens a session\n")?;
    out.push_str(head.as_str())?;
    push_called(alloc, out, client, first)?;
    let mut opened = Opened::new();
    let mut begin = 1usize;
    for command in files.commands.as_slice() {
        if command.client == client {
            push_command(alloc, out, command)?;
            let end = begin.saturating_add(opened.count(files, &command.act));
            for call in calls.iter().skip(begin).take(end.saturating_sub(begin)) {
                push_called(alloc, out, client, call)?;
            }
            begin = end;
        }
    }
    Ok(())
}

// Appends the line of a call.
fn push_called(
    alloc: Global,
    out: &mut String,
    client: u16,
    call: &Call,
) -> Result<(), OutOfMemory> {
    let head = format!(in alloc; "call {client}")?;
    out.push_str(head.as_str())?;
    let mut words = Vec::new(alloc);
    push_call(&mut words, call)?;
    push_line(out, &words)
}

// The form of a line by its place in a text, and the limits of the text.
use crate::OutOfMemory;
use crate::forms::{Choice, Slot};
use crate::words::{first_word, words_of};
use sem_text::number;
use sem_trace::{Slot as Number, is, most_kernels};
use std::alloc::Global;

/// The limits that the text of a line sets.
#[derive(Clone, Copy, Debug)]
pub struct Limits {
    /// The version of the text.
    pub version: u8,
    /// How many kernels are declared; the most that can be, if none are.
    pub kernels: u32,
}

/// What the place of a line tells.
#[derive(Clone, Copy, Debug)]
pub struct Setting {
    pub slots: &'static [Slot],
    pub limits: Limits,
    /// The number of the first line of the trace, or of the file commands, that the line belongs
    /// to.
    pub trace: Option<usize>,
    /// Whether it is a line of file commands.
    pub is_files: bool,
}

/// A number of a report.
const MANY: u64 = 4_294_967_295;

/// The kind that a text is taken for.
#[derive(Clone, Copy, Debug, PartialEq, Eq)]
pub enum TextKind {
    Trace,
    Report,
    Files,
}

/// The kind that the lines begin as, if they begin as one.
pub fn kind_in_lines(alloc: Global, lines: &[&[u8]]) -> Result<Option<TextKind>, OutOfMemory> {
    for line in lines {
        let words = words_of(alloc, line)?;
        match words.as_slice() {
            [one, two, ..] if is(one.text, b"semper") => return Ok(kind_named(two.text)),
            [one, ..] if one.text.first() != Some(&b'#') => return Ok(None),
            _ => {}
        }
    }
    Ok(None)
}

// The kind that the second word of the first line tells.
fn kind_named(word: &[u8]) -> Option<TextKind> {
    match word {
        b"report" => Some(TextKind::Report),
        b"files" => Some(TextKind::Files),
        b"trace" => Some(TextKind::Trace),
        _ => None,
    }
}

/// What the place of a line tells, counted from 0, in a text of that kind.
pub fn setting_of(
    alloc: Global,
    lines: &[&[u8]],
    at: usize,
    kind: TextKind,
) -> Result<Setting, OutOfMemory> {
    let limits = limits_of(alloc, lines)?;
    let slots = match kind {
        TextKind::Trace => trace_slots(lines, 0, at, limits.version != 1),
        TextKind::Files => file_slots(lines, at),
        TextKind::Report => return report_setting(alloc, lines, at, limits),
    };
    Ok(Setting {
        slots,
        limits,
        trace: Some(0),
        is_files: kind == TextKind::Files,
    })
}

// What the place of a line of a report tells.
fn report_setting(
    alloc: Global,
    lines: &[&[u8]],
    at: usize,
    limits: Limits,
) -> Result<Setting, OutOfMemory> {
    let end = trace_end(lines);
    let in_trace = at > 0 && at <= end;
    let slots = if in_trace {
        trace_slots(lines, 1, at, limits.version != 1)
    } else {
        report_slots(alloc, lines, end, at)?
    };
    Ok(Setting {
        slots,
        limits,
        trace: if in_trace { Some(1) } else { None },
        is_files: false,
    })
}

// The limits of a text with these lines.
fn limits_of(alloc: Global, lines: &[&[u8]]) -> Result<Limits, OutOfMemory> {
    let mut version = 1;
    let mut declared = None;
    for line in lines {
        let words = words_of(alloc, line)?;
        match words.as_slice() {
            [one, _, second, ..] if is(one.text, b"semper") => {
                version = if is(second.text, b"2") { 2 } else { 1 };
            }
            [one, count, ..] if is(one.text, b"kernels") && declared.is_none() => {
                declared = kernels_said(count.text);
            }
            [one, ..] if is(one.text, b"journal") => break,
            _ => {}
        }
    }
    Ok(Limits {
        version,
        kernels: declared.unwrap_or(most_kernels(version)),
    })
}

// The number of kernels that the word tells.
fn kernels_said(word: &[u8]) -> Option<u32> {
    match number(word, 32) {
        Ok(count) => Some(count as u32),
        Err(_) => None,
    }
}

// The place of the line that ends the trace of a report, or of the last line if none does.
fn trace_end(lines: &[&[u8]]) -> usize {
    for (place, line) in lines.iter().enumerate() {
        if is(first_word(line), b"end") {
            return place;
        }
    }
    lines.len().saturating_sub(1)
}

// Whether a line says something.
fn says(line: &[u8]) -> bool {
    !matches!(first_word(line), [] | [b'#', ..])
}

// The form of a line of a trace that begins with the line `first`.
fn trace_slots(lines: &[&[u8]], first: usize, at: usize, has_window: bool) -> &'static [Slot] {
    match count_said(lines, first, at) {
        0 => &[
            Slot::Fixed("semper"),
            Slot::Fixed("trace"),
            Slot::Choice(Choice::Version),
        ],
        1 => &[Slot::Fixed("kernels"), Slot::Number(Number::KernelCount)],
        2 if has_window => &[Slot::Fixed("window"), Slot::Number(Number::Window)],
        _ => &[Slot::Choice(Choice::Declaration)],
    }
}

// How many of the lines from `first` up to the place say something.
fn count_said(lines: &[&[u8]], first: usize, at: usize) -> usize {
    let mut count = 0usize;
    for (place, line) in lines.iter().enumerate() {
        if place >= first && place < at && says(line) {
            count = count.saturating_add(1);
        }
    }
    count
}

// The form of a line of file commands.
fn file_slots(lines: &[&[u8]], at: usize) -> &'static [Slot] {
    match count_said(lines, 0, at) {
        0 => &[
            Slot::Fixed("semper"),
            Slot::Fixed("files"),
            Slot::Fixed("1"),
        ],
        1 => &[Slot::Fixed("kernels"), Slot::Number(Number::KernelCount)],
        _ => &[Slot::Choice(Choice::FileLine)],
    }
}

// The number after the first word of a line; 0 if there is none.
fn count_of(alloc: Global, lines: &[&[u8]], at: usize) -> Result<usize, OutOfMemory> {
    let Some(line) = lines.get(at) else {
        return Ok(0);
    };
    let words = words_of(alloc, line)?;
    match words.as_slice() {
        [_, count, ..] => Ok(number(count.text, MANY).map_or(0, |count| count as usize)),
        _ => Ok(0),
    }
}

// The form of a line of a report outside its trace; the trace ends with the line `end`.
fn report_slots(
    alloc: Global,
    lines: &[&[u8]],
    end: usize,
    at: usize,
) -> Result<&'static [Slot], OutOfMemory> {
    let entries = count_of(alloc, lines, end.saturating_add(1))?;
    let audit = end.saturating_add(2).saturating_add(entries);
    let held = count_of(alloc, lines, audit.saturating_add(3))?;
    if at == 0 {
        return Ok(&[
            Slot::Fixed("semper"),
            Slot::Fixed("report"),
            Slot::Choice(Choice::Version),
        ]);
    }
    if at <= end.saturating_add(1) {
        return Ok(&[
            Slot::Fixed("journal"),
            Slot::Within("number of entries", 0, MANY),
        ]);
    }
    if at < audit {
        return Ok(&[Slot::Number(Number::Kernel), Slot::Choice(Choice::Event)]);
    }
    Ok(audit_slots(at.saturating_sub(audit), held))
}

// The form of a line of an audit that tells of that many held keys.
fn audit_slots(at: usize, held: usize) -> &'static [Slot] {
    match at {
        0 => &[Slot::Fixed("audit")],
        1 => &[
            Slot::Fixed("made"),
            Slot::Within("number of made keys", 0, MANY),
        ],
        2 => &[
            Slot::Fixed("cut"),
            Slot::Within("number of keys in the cut", 0, MANY),
        ],
        3 => &[
            Slot::Fixed("held"),
            Slot::Within("number of held keys", 0, MANY),
        ],
        _ if at.saturating_sub(4) < held => &[
            Slot::Fixed("key"),
            Slot::Key("held key"),
            Slot::Number(Number::Selector),
        ],
        _ => &[Slot::Fixed("end")],
    }
}

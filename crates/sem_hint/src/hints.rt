// The text that tells why a line is refused.
use crate::OutOfMemory;
use crate::causes::{is_named, wanted_at};
use crate::earlier::{named, twice};
use crate::forms::{Choice, Slot, choice_name, choice_words, meaning};
use crate::handles::strayed;
use crate::places::{Limits, Setting, TextKind, kind_in_lines, setting_of};
use crate::words::{Word, lines_of, nearest, text_of, words_of};
use sem_trace::{Cause, Range, TraceFault};
use std::alloc::Global;

/// The most bytes of a line that a text shows.
const SHOWN: usize = 100;

// The marked bytes of a line, and the text about them.
#[derive(Drop)]
struct Remark {
    begin: usize,
    width: usize,
    text: String,
}

/// Why the text, of that kind, is refused at its line: the line, the word in question under carets,
/// what belongs there and the nearest word that can stand there.
pub fn refusal_text(
    alloc: Global,
    text: &[u8],
    fault: &TraceFault,
    kind: TextKind,
) -> Result<String, OutOfMemory> {
    let lines = lines_of(alloc, text)?;
    let number = fault.line;
    let place = (number as usize).wrapping_sub(1);
    let Some(line) = lines.as_slice().get(place).copied() else {
        return beyond(alloc, fault, lines.len());
    };
    let setting = setting_of(alloc, lines.as_slice(), place, kind)?;
    let words = words_of(alloc, line)?;
    let first = setting.trace.unwrap_or(place).min(place);
    let earlier = &lines.as_slice()[first..place];
    let remark = remark_of(alloc, fault, &setting, earlier, line, words.as_slice())?;
    let said = remark.text.as_str();
    let mut out = format!(in alloc; "line {number}")?;
    push_word_number(alloc, &mut out, words.as_slice(), &remark)?;
    out.push_str(": ")?;
    out.push_str(said)?;
    out.push_str("\n    ")?;
    push_shown(alloc, &mut out, line, &remark)?;
    Ok(out)
}

/// Why the text is no report, though one was expected.
pub fn no_report_text(
    alloc: Global,
    text: &[u8],
    fault: &TraceFault,
) -> Result<String, OutOfMemory> {
    match kind_said(alloc, text)? {
        Some(TextKind::Trace) => String::from_str(
            alloc,
            "the input is a trace, and a report is wanted: semper run 0 makes one of it\n",
        ),
        Some(TextKind::Files) => String::from_str(
            alloc,
            "the input is file commands, and a report is wanted: semper files 0 makes one of them\n",
        ),
        _ => {
            let mut out = String::from_str(alloc, "the input is no report: ")?;
            out.push_str(refusal_text(alloc, text, fault, TextKind::Report)?.as_str())?;
            Ok(out)
        }
    }
}

/// The kind of the text, by its beginning.
pub fn kind_of(alloc: Global, text: &[u8]) -> Result<TextKind, OutOfMemory> {
    Ok(kind_said(alloc, text)?.unwrap_or(TextKind::Trace))
}

// The kind that the text says it is, in its first line that says something.
fn kind_said(alloc: Global, text: &[u8]) -> Result<Option<TextKind>, OutOfMemory> {
    let lines = lines_of(alloc, text)?;
    kind_in_lines(alloc, lines.as_slice())
}

// Why a text is refused at a line that it does not have.
fn beyond(alloc: Global, fault: &TraceFault, count: usize) -> Result<String, OutOfMemory> {
    match fault.cause {
        Cause::InputTooLong => String::from_str(alloc, "the text is longer than it may be\n"),
        _ if count == 0 => String::from_str(alloc, "it is empty\n"),
        _ => format!(in alloc; "the text ends behind line {count}, before its last line \"end\"\n"),
    }
}

// Appends the number of the word that the remark is about, if it is about one.
fn push_word_number(
    alloc: Global,
    out: &mut String,
    words: &[Word],
    remark: &Remark,
) -> Result<(), OutOfMemory> {
    for (place, word) in words.iter().enumerate() {
        if word.begin == remark.begin && remark.width == word.text.len() {
            let number = place.saturating_add(1);
            out.push_str(format!(in alloc; ", word {number}")?.as_str())?;
        }
    }
    Ok(())
}

// Appends the line, and carets under the part that the remark is about.
fn push_shown(
    alloc: Global,
    out: &mut String,
    line: &[u8],
    remark: &Remark,
) -> Result<(), OutOfMemory> {
    let end = remark.begin.saturating_add(remark.width).saturating_add(8);
    let last = line.len().min(end.max(SHOWN));
    let first = last.saturating_sub(SHOWN.saturating_add(remark.width));
    out.push_str(text_of(alloc, &line[first..last])?.as_str())?;
    out.push_str("\n    ")?;
    for _ in first..remark.begin {
        out.push(' ')?;
    }
    for _ in 0..remark.width.max(1).min(SHOWN) {
        out.push('^')?;
    }
    out.push('\n')
}

// The remark on the line.
fn remark_of(
    alloc: Global,
    fault: &TraceFault,
    setting: &Setting,
    earlier: &[&[u8]],
    line: &[u8],
    words: &[Word],
) -> Result<Remark, OutOfMemory> {
    match (fault.cause, fault.word) {
        (Cause::LineTooLong, _) => long_line(alloc, line),
        (Cause::NotText, _) => odd_byte(alloc, line),
        (Cause::NotCanonical, _) => whole(
            alloc,
            line,
            "another spelling than the canonical one: one blank between words and none at the ends, numbers and lines as they are written",
        ),
        (cause, Some(word)) => of_word(alloc, cause, word as usize, setting, earlier, line, words),
        (cause, None) => of_cause(alloc, line, cause, setting.is_files),
    }
}

// The remark on the word at the place.
fn of_word(
    alloc: Global,
    cause: Cause,
    place: usize,
    setting: &Setting,
    earlier: &[&[u8]],
    line: &[u8],
    words: &[Word],
) -> Result<Remark, OutOfMemory> {
    if let Some(text) = strayed(alloc, cause, place, earlier, words)? {
        return Ok(at_word(words, place, text));
    }
    match cause {
        Cause::Twice => match twice(alloc, earlier, words, place)? {
            Some(number) => {
                let number = number.saturating_add(setting.trace.unwrap_or(0));
                let text = format!(in alloc; "line {number} says this already")?;
                Ok(at_word(words, place, text))
            }
            None => whole(alloc, line, "an earlier line says this already"),
        },
        Cause::Undeclared => {
            let what = words.first().map_or("VPE", |name| named(name.text));
            let text = format!(in alloc; "no earlier line declares this {what}")?;
            Ok(at_word(words, place, text))
        }
        _ => of_form(alloc, cause, place, setting, line, words),
    }
}

// The remark on the word at the place that departs from the form of its line, or on the line whose
// words have their form.
fn of_form(
    alloc: Global,
    cause: Cause,
    place: usize,
    setting: &Setting,
    line: &[u8],
    words: &[Word],
) -> Result<Remark, OutOfMemory> {
    match (wanted_at(alloc, setting, words, place)?, words.get(place)) {
        (Some(slot), Some(word)) => {
            if is_named(alloc, slot, word.text, &setting.limits)? {
                of_cause(alloc, line, cause, setting.is_files)
            } else {
                of_other(alloc, cause, word, slot, &setting.limits)
            }
        }
        (Some(slot), None) => {
            let wanted = slot_text(alloc, slot, &setting.limits)?;
            Ok(Remark {
                begin: line.len(),
                width: 1,
                text: format!(in alloc; "the line ends here; wanted here: {wanted}")?,
            })
        }
        (None, _) => {
            let text = String::from_str(alloc, "a word too many")?;
            Ok(at_word(words, place, text))
        }
    }
}

// A remark on the whole line.
fn whole(alloc: Global, line: &[u8], text: &str) -> Result<Remark, OutOfMemory> {
    Ok(Remark {
        begin: 0,
        width: line.len(),
        text: String::from_str(alloc, text)?,
    })
}

// A remark on a word.
fn at_word(words: &[Word], place: usize, text: String) -> Remark {
    match words.get(place) {
        Some(word) => Remark {
            begin: word.begin,
            width: word.text.len(),
            text,
        },
        None => Remark {
            begin: 0,
            width: 1,
            text,
        },
    }
}

// The remark on a line that is too long.
fn long_line(alloc: Global, line: &[u8]) -> Result<Remark, OutOfMemory> {
    Ok(Remark {
        begin: 255usize.min(line.len()),
        width: 1,
        text: String::from_str(
            alloc,
            "the line has more than 255 bytes, which are the most",
        )?,
    })
}

// The remark on a byte that is no text.
fn odd_byte(alloc: Global, line: &[u8]) -> Result<Remark, OutOfMemory> {
    for (at, byte) in line.iter().enumerate() {
        if *byte != b'\t' && !(b' '..=b'~').contains(byte) {
            return Ok(Remark {
                begin: at,
                width: 1,
                text: odd_text(alloc, &line[at..], at)?,
            });
        }
    }
    whole(alloc, line, "a byte is neither a tab nor printable ASCII")
}

// The remark on the bytes from the first one that is no text; `at` is its place in the line.
fn odd_text(alloc: Global, bytes: &[u8], at: usize) -> Result<String, OutOfMemory> {
    match bytes {
        [b'\r'] => String::from_str(
            alloc,
            "the line ends with CR LF, and a line ends with LF alone",
        ),
        [0xef, 0xbb, 0xbf, ..] if at == 0 => String::from_str(
            alloc,
            "the line begins with a byte order mark, and a text has none",
        ),
        [first, ..] => match letter_at(bytes) {
            Some(letter) => format!(in alloc; "\"{letter}\" is not ASCII"),
            None => format!(in alloc; "the byte {first} is neither a tab nor printable ASCII"),
        },
        [] => String::from_str(alloc, "a byte is neither a tab nor printable ASCII"),
    }
}

// The non-ASCII letter that the bytes begin with in UTF-8, if they do.
fn letter_at(bytes: &[u8]) -> Option<char> {
    for count in 2usize..5 {
        let part = bytes.get(..count)?;
        if let Ok(text) = std::str::from_utf8(part) {
            return text.chars().next().filter(|letter| !letter.is_ascii());
        }
    }
    None
}

// The remark on a line whose words have their form.
fn of_cause(
    alloc: Global,
    line: &[u8],
    cause: Cause,
    is_files: bool,
) -> Result<Remark, OutOfMemory> {
    match cause {
        Cause::OutOfRange if is_files => whole(alloc, line, "the range ends behind the file"),
        Cause::OutOfRange => whole(alloc, line, "the memory ends above 4294967296"),
        Cause::TooMany if is_files => whole(
            alloc,
            line,
            "a line too many: it stands behind \"end\", or the client opens for the 1001st time, or there are more than 20000 calls",
        ),
        Cause::TooMany => whole(
            alloc,
            line,
            "a line too many: something stands behind \"end\", or it is the call number 20001",
        ),
        _ => {
            let text = format!(in alloc; "{cause}")?;
            whole(alloc, line, text.as_str())
        }
    }
}

// The remark on a word in the place of another.
fn of_other(
    alloc: Global,
    cause: Cause,
    word: &Word,
    slot: Slot,
    limits: &Limits,
) -> Result<Remark, OutOfMemory> {
    let wanted = slot_text(alloc, slot, limits)?;
    let given = text_of(alloc, word.text)?;
    let text = match slot {
        Slot::Choice(choice) => of_choice(alloc, choice, given.as_str())?,
        Slot::Fixed(_) => format!(in alloc; "\"{given}\" stands where {wanted} belongs")?,
        _ if cause == Cause::OutOfRange => {
            format!(in alloc; "\"{given}\" is out of range; wanted here: {wanted}")?
        }
        _ => format!(in alloc; "\"{given}\" cannot stand here; wanted here: {wanted}")?,
    };
    Ok(Remark {
        begin: word.begin,
        width: word.text.len(),
        text,
    })
}

// The remark on a word that is not in a choice.
fn of_choice(alloc: Global, choice: Choice, given: &str) -> Result<String, OutOfMemory> {
    let name = choice_name(choice);
    let names = choice_words(alloc, choice)?;
    let mut text = format!(in alloc; "\"{given}\" is no {name}")?;
    match nearest(alloc, given, names.as_slice())? {
        Some(near) => text.push_str(format!(in alloc; "; did you mean \"{near}\"?")?.as_str())?,
        None => {
            text.push_str("; wanted here: ")?;
            push_list(&mut text, names.as_slice())?;
        }
    }
    Ok(text)
}

// Appends the names with commas between them.
fn push_list(text: &mut String, names: &[&'static str]) -> Result<(), OutOfMemory> {
    for (at, name) in names.iter().enumerate() {
        if at > 0 {
            text.push_str(", ")?;
        }
        text.push_str(name)?;
    }
    Ok(())
}

// What belongs in a place.
fn slot_text(alloc: Global, slot: Slot, limits: &Limits) -> Result<String, OutOfMemory> {
    match slot {
        Slot::Fixed(name) => format!(in alloc; "\"{name}\""),
        Slot::Number(number) => {
            let what = meaning(number);
            let Range { least, most } = number.range(limits.version, limits.kernels);
            format!(in alloc; "the {what}, from {least} to {most}")
        }
        Slot::Within(what, least, most) => {
            format!(in alloc; "the {what}, from {least} to {most}")
        }
        Slot::Key(what) => {
            format!(in alloc;
                "the key of the {what}, as PE.VPE.KIND.NUMBER with a kind from 1 to 5"
            )
        }
        Slot::Place => String::from_str(alloc, "a place, as PE.VPE.NUMBER"),
        Slot::Choice(choice) => {
            let mut text = String::from_str(alloc, "one of ")?;
            push_list(&mut text, choice_words(alloc, choice)?.as_slice())?;
            Ok(text)
        }
    }
}

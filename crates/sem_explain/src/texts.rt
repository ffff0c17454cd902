// Lines of an explanation. If memory is refused, each of these functions may have appended a part.
use sem_journal::push_entry_words;
use sem_key::OutOfMemory;
use sem_msg::Entry;
use sem_trace::Lines;
use std::alloc::Global;

/// The columns of the word that names the source of a line.
const WORD: usize = 8;

/// The columns of the number of an entry.
const NUMBER: usize = 6;

/// Appends an entry with its number, after the word that names its source.
pub fn push_entry(
    alloc: Global,
    out: &mut String,
    word: &str,
    number: u64,
    entry: &Entry,
) -> Result<(), OutOfMemory> {
    let mut words = Vec::new(alloc);
    push_entry_words(&mut words, entry)?;
    let mut text = String::new(alloc);
    push_bytes(&mut text, words.as_slice())?;
    push_numbered(alloc, out, word, number, text.as_str())
}

/// Appends a line with the number of an entry, after the word that names its source.
pub fn push_numbered(
    alloc: Global,
    out: &mut String,
    word: &str,
    number: u64,
    text: &str,
) -> Result<(), OutOfMemory> {
    let digits = format!(in alloc; "{number}")?;
    let mut line = String::new(alloc);
    push_blanks(&mut line, NUMBER.saturating_sub(digits.len()))?;
    line.push_str(digits.as_str())?;
    line.push_str("  ")?;
    line.push_str(text)?;
    push_shown(out, word, line.as_str())
}

/// Appends a line after the word that names its source.
pub fn push_shown(out: &mut String, word: &str, text: &str) -> Result<(), OutOfMemory> {
    push_blanks(out, 2)?;
    out.push_str(word)?;
    push_blanks(out, WORD.saturating_sub(word.len()))?;
    out.push_str(text)?;
    out.push('\n')
}

/// The line of that number, counted from 1; empty if there is none. Bytes that are not printable
/// are question marks.
pub fn text_of_line(alloc: Global, bytes: &[u8], number: u64) -> Result<String, OutOfMemory> {
    let mut text = String::new(alloc);
    let mut lines = Lines::of(bytes);
    for at in 1..=number {
        let Some(line) = lines.next_line() else {
            return Ok(text);
        };
        if at == number {
            push_bytes(&mut text, line)?;
        }
    }
    Ok(text)
}

// Appends the bytes as text.
fn push_bytes(out: &mut String, bytes: &[u8]) -> Result<(), OutOfMemory> {
    for byte in bytes {
        out.push(if (b' '..=b'~').contains(byte) {
            char::from(*byte)
        } else {
            '?'
        })?;
    }
    Ok(())
}

// Appends that many blanks.
fn push_blanks(out: &mut String, count: usize) -> Result<(), OutOfMemory> {
    for _ in 0..count {
        out.push(' ')?;
    }
    Ok(())
}

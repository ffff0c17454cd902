// Words of lines, as text.
use crate::OutOfMemory;
use sem_key::Key;
use sem_trace::{Lines, next_word};
use std::alloc::Global;
use strsim::osa_distance;

/// A word and its place in its line.
#[derive(Clone, Copy, Debug)]
pub struct Word<'a> {
    pub begin: usize,
    pub text: &'a [u8],
}

/// The words of the line.
pub fn words_of<'a>(alloc: Global, line: &'a [u8]) -> Result<Vec<Word<'a>>, OutOfMemory> {
    let mut words = Vec::new(alloc);
    let mut rest = line;
    for _ in 0..line.len() {
        let Some((word, behind)) = next_word(rest) else {
            return Ok(words);
        };
        let end = line.len().saturating_sub(behind.len());
        words.push(Word {
            begin: end.saturating_sub(word.len()),
            text: word,
        })?;
        rest = behind;
    }
    Ok(words)
}

/// The most bytes of a line that are read: a few more than a line may have.
const LOOKED_AT: usize = 512;

/// The lines of the text, each without its end; of a long one only the first bytes.
pub fn lines_of<'a>(alloc: Global, text: &'a [u8]) -> Result<Vec<&'a [u8]>, OutOfMemory> {
    let mut lines = Vec::new(alloc);
    let mut rest = Lines::of(text);
    for _ in 0..text.len() {
        let Some(line) = rest.next_line() else {
            return Ok(lines);
        };
        lines.push(&line[..line.len().min(LOOKED_AT)])?;
    }
    Ok(lines)
}

/// The first word of the line; empty if there is none.
pub fn first_word(line: &[u8]) -> &[u8] {
    match next_word(line) {
        Some((word, _)) => word,
        None => b"",
    }
}

/// The bytes as text; those that are not printable are question marks.
pub fn text_of(alloc: Global, bytes: &[u8]) -> Result<String, OutOfMemory> {
    let mut text = String::new(alloc);
    for byte in bytes {
        text.push(if (b' '..=b'~').contains(byte) {
            char::from(*byte)
        } else {
            '?'
        })?;
    }
    Ok(text)
}

/// The text of the key.
pub fn key_text(alloc: Global, key: &Key) -> Result<String, OutOfMemory> {
    let (pe, vpe, kind, number) = (key.pe, key.vpe, key.kind.number(), key.number);
    format!(in alloc; "{pe}.{vpe}.{kind}.{number}")
}

/// The name nearest to the word, if one is near.
pub fn nearest(
    alloc: Global,
    word: &str,
    names: &[&'static str],
) -> Result<Option<&'static str>, OutOfMemory> {
    let mut best = None;
    let mut least = word.len().min(6) / 2;
    for name in names {
        let distance = osa_distance(alloc, word, name)?;
        if distance <= least && distance > 0 {
            best = Some(*name);
            least = distance.saturating_sub(1);
        }
    }
    Ok(best)
}

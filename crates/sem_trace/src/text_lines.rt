// Lines of a text and words of a line, from the front.
ghost use Rattle.std.specs.Prelude.{◌≡◌, ◌≤◌, true, MatchOption, ◌∷◌, [], length, take, drop};
ghost use Rattle.std.specs.List.{list_all};
ghost use Rattle.sem_trace.specs.TextLines.{lines_of, words_of, is_text as is_text_spec};
ghost use Rattle.sem_trace.specs.TextLines.{is_significant as is_significant_spec};
ghost use Rattle.sem_trace.specs.TextLines.{bytes_fault as bytes_fault_spec};

use crate::fault::Cause;
use sem_text::{line_at, word_at};

/// The most bytes of a line, without its end.
const LINE_BYTES: usize = 255;

/// The first line, and the text after it; none if there is no text. Takes no memory.
pub fn next_line(text: &[u8]) -> Option<(&[u8], &[u8])>
    ensures { MatchOption result (lines_of text.now ≡ []) (λ p. lines_of text.now
        ≡ p.0.now ∷ lines_of p.1.now) }
{
    let (end, next) = line_at(text, 0)?;
    let (line, _) = text.split_at(end);
    let (_, rest) = text.split_at(next);
    Some((line, rest))
}

// Whether the line begins with a blank, a word of one byte, and then a blank or nothing.
#[inline]
fn begins_with_byte_word(line: &[u8]) -> bool
    ensures within { result ≡ true → 2 ≤ length line.now }
    ensures words { result ≡ true → words_of line.now
        ≡ drop 1 (take 2 line.now) ∷ words_of (drop 2 line.now) }
{
    match line {
        [b' ', byte] => *byte > b' ',
        [b' ', byte, b' ', ..] => *byte > b' ',
        _ => false,
    }
}

/// The first word, and the rest after it; none if there is no word. Takes no memory.
// Most words are numbers of one digit, and their way is inlined.
#[inline(always)]
pub fn next_word(line: &[u8]) -> Option<(&[u8], &[u8])>
    ensures { MatchOption result (words_of line.now ≡ []) (λ p. words_of line.now
        ≡ p.0.now ∷ words_of p.1.now) }
{
    if begins_with_byte_word(line) {
        let (front, rest) = line.split_at(2);
        let (_, word) = front.split_at(1);
        return Some((word, rest));
    }
    next_word_of_any_length(line)
}

#[inline(never)]
fn next_word_of_any_length(line: &[u8]) -> Option<(&[u8], &[u8])>
    ensures { MatchOption result (words_of line.now ≡ []) (λ p. words_of line.now
        ≡ p.0.now ∷ words_of p.1.now) }
{
    let (begin, end) = word_at(line, 0)?;
    let (front, rest) = line.split_at(end);
    let (_, word) = front.split_at(begin);
    Some((word, rest))
}

/// Whether the line says something: it has a word, and the first is no comment. Takes no memory.
pub fn is_significant(line: &[u8]) -> bool
    ensures { result ≡ is_significant_spec (words_of line.now) }
{
    match line {
        [first, ..] if *first > b' ' => *first != b'#',
        _ => is_significant_behind_blanks(line),
    }
}

fn is_significant_behind_blanks(line: &[u8]) -> bool
    ensures { result ≡ is_significant_spec (words_of line.now) }
{
    match next_word(line) {
        Some((word, _)) => !matches!(word, [b'#', ..]),
        None => false,
    }
}

// A tab or a printable byte.
fn is_text(byte: u8) -> bool
    ensures { result ≡ is_text_spec byte }
{
    byte == b'\t' || (b' '..=b'~').contains(&byte)
}

// Whether all bytes are tabs or printable. It tests many at a time, for it has no early exit.
fn all_text(line: &[u8]) -> bool
    ensures { result ≡ list_all is_text_spec line.now }
{
    let mut all = true;
    for byte in line {
        all &= is_text(*byte);
    }
    all
}

/// What is wrong with the bytes of the line, whatever it says. Takes no memory.
#[tactic(auto, unfolding(crate::specs::TextLines::bytes_fault))]
pub fn bytes_fault(line: &[u8]) -> Option<Cause>
    ensures { result ≡ bytes_fault_spec line.now }
{
    if line.len() > LINE_BYTES {
        return Some(Cause::LineTooLong);
    }
    if all_text(line) {
        None
    } else {
        Some(Cause::NotText)
    }
}

// Pieces of text in pictures. If memory is refused, each of these functions may have appended a
// part.
use crate::OutOfMemory;
use std::alloc::Global;

/// The columns of a text picture.
pub const WIDTH: usize = 100;

/// Appends that many blanks.
pub fn push_blanks(out: &mut String, count: usize) -> Result<(), OutOfMemory> {
    for _ in 0..count {
        out.push(' ')?;
    }
    Ok(())
}

/// Appends the number, after blanks if it is shorter than `width`.
pub fn push_right(
    alloc: Global,
    out: &mut String,
    number: u64,
    width: usize,
) -> Result<(), OutOfMemory> {
    let digits = number_text(alloc, number)?;
    push_blanks(out, width.saturating_sub(digits.len()))?;
    out.push_str(digits.as_str())
}

/// Appends the text, and then blanks if it is shorter than `width`.
pub fn push_left(out: &mut String, text: &str, width: usize) -> Result<(), OutOfMemory> {
    out.push_str(text)?;
    push_blanks(out, width.saturating_sub(text.len()))
}

/// The decimal text of the number.
pub fn number_text(alloc: Global, number: u64) -> Result<String, OutOfMemory> {
    format!(in alloc; "{number}")
}

/// The text, cut at blanks into pieces of at most `width` bytes each, unless a word is longer; one
/// empty piece if there is no word.
pub fn wrapped(alloc: Global, text: &str, width: usize) -> Result<Vec<String>, OutOfMemory> {
    let mut pieces = Vec::new(alloc);
    let mut piece = String::new(alloc);
    for word in text.split(' ') {
        if !piece.is_empty() && piece.len().saturating_add(word.len()) >= width {
            pieces.push(piece)?;
            piece = String::new(alloc);
        }
        if !piece.is_empty() {
            piece.push(' ')?;
        }
        piece.push_str(word)?;
    }
    pieces.push(piece)?;
    Ok(pieces)
}

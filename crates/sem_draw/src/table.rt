// Tables as text.
use crate::OutOfMemory;
use crate::lines::{push_blanks, push_left};
use std::alloc::Global;

/// A column of a table: its heading, its words from the first row on, and whether they are aligned
/// to the right. No call of it takes memory.
#[derive(Debug, Drop)]
pub struct Column {
    pub name: &'static str,
    pub words: Vec<String>,
    pub is_right: bool,
}

impl Column {
    /// A column without words.
    pub fn new(alloc: Global, name: &'static str, is_right: bool) -> Column {
        Column {
            name,
            words: Vec::new(alloc),
            is_right,
        }
    }

    /// The most characters of its words and its heading.
    pub fn width(&self) -> usize {
        let mut width = self.name.len();
        for word in self.words.as_slice() {
            width = width.max(word.len());
        }
        width
    }

    /// The word of a row, or the heading if no row is asked for.
    pub fn word(&self, row: Option<usize>) -> &str {
        match row {
            None => self.name,
            Some(row) => self.words.get(row).map_or("", |word| word.as_str()),
        }
    }
}

/// The number of rows of a table.
pub fn row_count(table: &[Column]) -> usize {
    table.first().map_or(0, |column| column.words.len())
}

/// Appends a row, or the headings of the columns. If memory is refused, it may have appended a
/// part.
pub fn push_table_row(
    out: &mut String,
    table: &[Column],
    row: Option<usize>,
) -> Result<(), OutOfMemory> {
    let count = table.len();
    for (at, column) in table.iter().enumerate() {
        let word = column.word(row);
        let blanks = column.width().saturating_sub(word.len());
        if at > 0 {
            out.push_str("  ")?;
        }
        if column.is_right {
            push_blanks(out, blanks)?;
            out.push_str(word)?;
        } else if at.saturating_add(1) == count {
            out.push_str(word)?;
        } else {
            push_left(out, word, column.width())?;
        }
    }
    Ok(())
}

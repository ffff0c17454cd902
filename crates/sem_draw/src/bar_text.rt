// Bars as text.
use crate::OutOfMemory;
use crate::bar::{Bar, Owner, group_text};
use crate::lines::{WIDTH, number_text, push_blanks, push_left, wrapped};
use crate::table::{Column, push_table_row, row_count};
use std::alloc::Global;

/// The most columns of a bar, and so the most parts of it that are shown.
pub const CELLS: usize = 64;

/// The columns to the left of a bar.
const EDGE: usize = 2;

/// The columns of a line's name.
const NAME: usize = 7;

/// The characters of the colours; with more colours they begin again.
const SHADES: [char; 4] = ['█', '▒', '▓', '░'];

const PLAIN: [char; 4] = ['#', '=', '%', '+'];

// The character of a part in the text picture.
fn shade(owner: Option<Owner>, is_plain: bool) -> char {
    match (owner, is_plain) {
        (None, false) => '·',
        (None, true) => '.',
        (Some(owner), false) => SHADES[owner.color % 4],
        (Some(owner), true) => PLAIN[owner.color % 4],
    }
}

/// The bars as text of 100 columns, one below the other, with box characters or without.
pub fn bars_as_text(alloc: Global, bars: &[Bar], is_plain: bool) -> Result<String, OutOfMemory> {
    let mut out = String::new(alloc);
    for (at, bar) in bars.iter().enumerate() {
        if at > 0 {
            out.push('\n')?;
        }
        push_bar(alloc, &mut out, bar, is_plain)?;
    }
    Ok(out)
}

// Appends a bar with all that belongs to it.
fn push_bar(alloc: Global, out: &mut String, bar: &Bar, is_plain: bool) -> Result<(), OutOfMemory> {
    let (title, scale) = (bar.title.as_str(), bar.scale.as_str());
    let title = format!(in alloc; "{title}; {scale}")?;
    for piece in wrapped(alloc, title.as_str(), WIDTH)?.as_slice() {
        out.push_str(piece.as_str())?;
        out.push('\n')?;
    }
    out.push('\n')?;
    push_names(alloc, out, bar, "VPE", true)?;
    push_name(out, "")?;
    for cell in bar.cells.as_slice() {
        for _ in 0..columns(bar) {
            out.push(shade(*cell, is_plain))?;
        }
    }
    out.push('\n')?;
    push_names(alloc, out, bar, "entry", false)?;
    out.push('\n')?;
    push_rows(out, bar, is_plain)?;
    push_notes(out, bar.notes.as_slice())
}

// The number of columns of a part.
fn columns(bar: &Bar) -> usize {
    CELLS / bar.cells.len().max(1)
}

// Appends the name of a line.
fn push_name(out: &mut String, name: &str) -> Result<(), OutOfMemory> {
    push_blanks(out, EDGE)?;
    push_left(out, name, NAME)
}

// Appends a line of names for the parts of a bar: of their owners, or of what lies there. A name
// stands where it fits.
fn push_names(
    alloc: Global,
    out: &mut String,
    bar: &Bar,
    name: &str,
    is_group: bool,
) -> Result<(), OutOfMemory> {
    let mut line = String::new(alloc);
    push_name(&mut line, name)?;
    let mut column = line.len();
    let cells = bar.cells.as_slice();
    for (at, cell) in cells.iter().enumerate() {
        let begins = at == 0 || cells.get(at.saturating_sub(1)) != Some(cell);
        if begins && let Some(owner) = cell {
            let text = if is_group {
                group_text(alloc, *owner)?
            } else {
                number_text(alloc, owner.number)?
            };
            if text.len() <= room(&cells[at..], columns(bar)) {
                let blanks = column.saturating_sub(line.len());
                push_blanks(&mut line, blanks)?;
                line.push_str(text.as_str())?;
            }
        }
        column = column.saturating_add(columns(bar));
    }
    push_trimmed(out, line.as_str())
}

// How many columns the parts equal to the first have.
fn room(cells: &[Option<Owner>], columns: usize) -> usize {
    let mut room = 0usize;
    for cell in cells {
        if cells.first() != Some(cell) {
            break;
        }
        room = room.saturating_add(columns);
    }
    room
}

// Appends the line without blanks at its end.
fn push_trimmed(out: &mut String, line: &str) -> Result<(), OutOfMemory> {
    out.push_str(line.trim_end())?;
    out.push('\n')
}

// Appends the table of the stretches of a bar.
fn push_rows(out: &mut String, bar: &Bar, is_plain: bool) -> Result<(), OutOfMemory> {
    let table = bar.rows.as_slice();
    push_blanks(out, EDGE.saturating_add(3))?;
    push_table_row(out, table, None)?;
    out.push('\n')?;
    for (row, stretch) in bar.stretches.as_slice().iter().enumerate() {
        push_blanks(out, EDGE)?;
        out.push(shade(stretch.owner, is_plain))?;
        out.push_str("  ")?;
        push_table_row(out, table, Some(row))?;
        out.push('\n')?;
    }
    Ok(())
}

// Appends the table below, if it has rows.
fn push_notes(out: &mut String, table: &[Column]) -> Result<(), OutOfMemory> {
    let count = row_count(table);
    if count == 0 {
        return Ok(());
    }
    out.push('\n')?;
    push_blanks(out, EDGE.saturating_add(3))?;
    push_table_row(out, table, None)?;
    out.push('\n')?;
    for row in 0..count {
        push_blanks(out, EDGE.saturating_add(3))?;
        push_table_row(out, table, Some(row))?;
        out.push('\n')?;
    }
    Ok(())
}

// Timelines as text.
use crate::OutOfMemory;
use crate::lines::{WIDTH, number_text, push_blanks, push_left, wrapped};
use crate::timeline::{Moment, Timeline};
use crate::tree::State;
use std::alloc::Global;

/// The most columns of the text about a moment.
const TEXT: usize = 44;

/// The fewest columns of the numbers.
const NUMBER: usize = 5;

/// The text in place of a number for the start.
const START: &str = "start";

// The columns of the numbers, and of the texts about moments.
#[derive(Clone, Copy)]
struct Widths {
    number: usize,
    text: usize,
}

/// The timeline as text of 100 columns, with box characters or without.
pub fn timeline_as_text(
    alloc: Global,
    timeline: &Timeline,
    is_plain: bool,
) -> Result<String, OutOfMemory> {
    let mut out = String::new(alloc);
    let (name, text) = (timeline.name.as_str(), timeline.text.as_str());
    let head = format!(in alloc; "{name}  {text}")?;
    for piece in wrapped(alloc, head.as_str(), WIDTH)?.as_slice() {
        out.push_str(piece.as_str())?;
        out.push('\n')?;
    }
    out.push('\n')?;
    let widths = measured(alloc, timeline)?;
    push_blanks(&mut out, widths.number.saturating_sub(NUMBER))?;
    out.push_str("  entry\n")?;
    for moment in timeline.moments.as_slice() {
        push_moment(alloc, &mut out, moment, widths, is_plain)?;
    }
    Ok(out)
}

// The columns of the numbers, and of the texts about moments.
fn measured(alloc: Global, timeline: &Timeline) -> Result<Widths, OutOfMemory> {
    let mut widths = Widths {
        number: NUMBER,
        text: 0,
    };
    for moment in timeline.moments.as_slice() {
        let number = number_text(alloc, moment.number.unwrap_or(0))?;
        widths.number = widths.number.max(number.len());
        for piece in wrapped(alloc, moment.text.as_str(), TEXT)?.as_slice() {
            widths.text = widths.text.max(piece.len());
        }
    }
    Ok(widths)
}

// The line that goes down from a moment.
fn stem(state: State, is_plain: bool) -> char {
    match (state, is_plain) {
        (State::OnItsWay, false) => '╎',
        (State::OnItsWay, true) => ':',
        (State::Held, false) => '│',
        (State::Held, true) => '|',
        (State::Marked, false) => '┃',
        (State::Marked, true) => '#',
        (State::Gone, false) => '✗',
        (State::Gone, true) => 'x',
    }
}

// Appends the lines of a moment.
fn push_moment(
    alloc: Global,
    out: &mut String,
    moment: &Moment,
    widths: Widths,
    is_plain: bool,
) -> Result<(), OutOfMemory> {
    let begins = widths.number.saturating_add(widths.text).saturating_add(9);
    let texts = wrapped(alloc, moment.text.as_str(), TEXT)?;
    let lines = wrapped(
        alloc,
        moment.line.as_str(),
        WIDTH.saturating_sub(begins).max(TEXT / 2),
    )?;
    for at in 0..texts.len().max(lines.len()) {
        let mut row = String::new(alloc);
        push_number(alloc, &mut row, moment.number, widths.number, at == 0)?;
        row.push(stem(moment.state, is_plain))?;
        row.push_str("  ")?;
        push_left(&mut row, piece(texts.as_slice(), at), widths.text)?;
        row.push_str("  ")?;
        row.push_str(piece(lines.as_slice(), at))?;
        out.push_str(row.as_str().trim_end())?;
        out.push('\n')?;
    }
    Ok(())
}

// The piece at that place; empty if there is none.
fn piece(pieces: &[String], at: usize) -> &str {
    pieces.get(at).map_or("", |piece| piece.as_str())
}

// Appends the number of a moment with blanks around it; only blanks in its later lines.
fn push_number(
    alloc: Global,
    out: &mut String,
    number: Option<u64>,
    width: usize,
    is_first: bool,
) -> Result<(), OutOfMemory> {
    let word = match number {
        _ if !is_first => String::new(alloc),
        Some(number) => number_text(alloc, number)?,
        None => String::from_str(alloc, START)?,
    };
    let blanks = width.saturating_sub(word.len());
    push_blanks(out, blanks.saturating_add(2))?;
    out.push_str(word.as_str())?;
    out.push_str("  ")
}

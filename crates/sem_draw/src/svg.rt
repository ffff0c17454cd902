// Elements of an SVG picture. If memory is refused, each of these functions may have appended a
// part.
use crate::OutOfMemory;
use crate::lines::number_text;
use crate::tree::State;
use std::alloc::Global;

/// The pixels of a character.
const CHARACTER: u64 = 8;

/// A place in pixels from the left and from the top.
#[derive(Clone, Copy, Debug)]
pub struct Point {
    pub x: u64,
    pub y: u64,
}

/// The pixels of that many bytes of text.
pub fn text_width(bytes: usize) -> u64 {
    (bytes as u64).saturating_mul(CHARACTER)
}

/// The class of what is in that state.
pub fn state_class(state: State) -> &'static str {
    match state {
        State::Held => "held",
        State::Marked => "marked",
        State::OnItsWay => "way",
        State::Gone => "gone",
    }
}

/// Appends the text with markup characters escaped.
pub fn push_escaped(out: &mut String, text: &str) -> Result<(), OutOfMemory> {
    for c in text.chars() {
        match c {
            '<' => out.push_str("&lt;")?,
            '>' => out.push_str("&gt;")?,
            '&' => out.push_str("&amp;")?,
            '"' => out.push_str("&quot;")?,
            _ => out.push(c)?,
        }
    }
    Ok(())
}

/// Appends the beginning of a picture of that size.
pub fn push_head(
    alloc: Global,
    out: &mut String,
    size: Point,
    style: &str,
) -> Result<(), OutOfMemory> {
    let (width, height) = (size.x, size.y);
    let head = format!(in alloc;
        "<svg xmlns=\"http://www.w3.org/2000/svg\" width=\"{width}\" height=\"{height}\" viewBox=\"0 0 {width} {height}\">\n"
    )?;
    out.push_str(head.as_str())?;
    out.push_str("<style>")?;
    out.push_str(style)?;
    out.push_str("</style>\n<rect width=\"100%\" height=\"100%\" fill=\"#ffffff\"/>\n")
}

/// Appends the end of a picture.
pub fn push_tail(out: &mut String) -> Result<(), OutOfMemory> {
    out.push_str("</svg>\n")
}

/// Appends the beginning of a group that shows this text under the pointer.
pub fn push_hint(out: &mut String, text: &str) -> Result<(), OutOfMemory> {
    out.push_str("<g><title>")?;
    push_escaped(out, text)?;
    out.push_str("</title>\n")
}

/// Appends the end of such a group.
pub fn push_hint_end(out: &mut String) -> Result<(), OutOfMemory> {
    out.push_str("</g>\n")
}

/// Appends a line of that class.
pub fn push_line(
    alloc: Global,
    out: &mut String,
    class: &str,
    from: Point,
    to: Point,
) -> Result<(), OutOfMemory> {
    let (x1, y1, x2, y2) = (from.x, from.y, to.x, to.y);
    let line = format!(in alloc;
        "<line class=\"{class}\" x1=\"{x1}\" y1=\"{y1}\" x2=\"{x2}\" y2=\"{y2}\"/>\n"
    )?;
    out.push_str(line.as_str())
}

/// Appends a text of that class.
pub fn push_text(
    alloc: Global,
    out: &mut String,
    class: &str,
    at: Point,
    text: &str,
) -> Result<(), OutOfMemory> {
    let (x, y) = (at.x, at.y);
    let begin = format!(in alloc; "<text class=\"{class}\" x=\"{x}\" y=\"{y}\">")?;
    out.push_str(begin.as_str())?;
    push_escaped(out, text)?;
    out.push_str("</text>\n")
}

/// Appends a rectangle of that class, from its upper left corner.
pub fn push_rect(
    alloc: Global,
    out: &mut String,
    class: &str,
    at: Point,
    width: u64,
    height: u64,
) -> Result<(), OutOfMemory> {
    let (x, y) = (at.x, at.y);
    let rect = format!(in alloc;
        "<rect class=\"{class}\" x=\"{x}\" y=\"{y}\" width=\"{width}\" height=\"{height}\" rx=\"3\"/>\n"
    )?;
    out.push_str(rect.as_str())
}

/// Appends a circle of that class.
pub fn push_circle(
    alloc: Global,
    out: &mut String,
    class: &str,
    at: Point,
    radius: u64,
) -> Result<(), OutOfMemory> {
    let (x, y) = (at.x, at.y);
    let circle = format!(in alloc;
        "<circle class=\"{class}\" cx=\"{x}\" cy=\"{y}\" r=\"{radius}\"/>\n"
    )?;
    out.push_str(circle.as_str())
}

/// Appends a short line down from that place, and below it the number, a text of that class on that
/// baseline. Returns the right end of the number.
pub fn push_tick(
    alloc: Global,
    out: &mut String,
    class: &str,
    at: Point,
    baseline: u64,
    number: u64,
) -> Result<u64, OutOfMemory> {
    let Point { x, y } = at;
    let end = y.saturating_add(5);
    push_line(alloc, out, "tick", at, Point { x, y: end })?;
    let text = number_text(alloc, number)?;
    push_text(alloc, out, class, Point { x, y: baseline }, text.as_str())?;
    Ok(x.saturating_add(text_width(text.len())))
}

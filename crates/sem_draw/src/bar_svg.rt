// Bars as SVG.
use crate::OutOfMemory;
use crate::bar::{Bar, Owner, Span, Stretch, group_text};
use crate::lines::number_text;
use crate::svg::{Point, push_head, push_rect, push_tail, push_text, push_tick, text_width};
use crate::table::{Column, row_count};
use std::alloc::Global;

/// The place of the first bar.
const EDGE: u64 = 16;

/// The length and the height of a bar.
const LENGTH: u64 = 640;

const HEIGHT: u64 = 40;

/// The height of a table row, and the gap between things that belong together.
const ROW: u64 = 22;

const GAP: u64 = 14;

/// The number of colours.
const COLORS: usize = 7;

/// The style of the classes. The colours differ in lightness too.
const STYLE: &str =
    "text{font:13px 'DejaVu Sans Mono',Menlo,Consolas,monospace;fill:#1f2430}.title{font-weight:bold;fill:#26418f}.middle{text-anchor:middle}.right{text-anchor:end}.head{fill:#7a8194}.head-right{fill:#7a8194;text-anchor:end}.tick{stroke:#8d95a8}.none{fill:#f6f7fa;stroke:#a0a4ae;stroke-dasharray:2 3}.c0{fill:#a9d0f5;stroke:#1668c1}.c1{fill:#f6c667;stroke:#8a5a00}.c2{fill:#8fd3bd;stroke:#0a6b4f}.c3{fill:#ecb6d3;stroke:#96376d}.c4{fill:#f5ef9a;stroke:#7d7400}.c5{fill:#e5946c;stroke:#8c3a10}.c6{fill:#c9ccd4;stroke:#4d5362}";

// The class of a part.
fn class(owner: Option<Owner>) -> &'static str {
    let Some(owner) = owner else {
        return "none";
    };
    match owner.color % COLORS {
        0 => "c0",
        1 => "c1",
        2 => "c2",
        3 => "c3",
        4 => "c4",
        5 => "c5",
        _ => "c6",
    }
}

// The baseline of a row's text, given the top of the row.
fn base(y: u64) -> u64 {
    y.saturating_add(15)
}

/// The bars as an SVG picture, one below the other.
pub fn bars_as_svg(alloc: Global, bars: &[Bar]) -> Result<String, OutOfMemory> {
    let mut out = String::new(alloc);
    push_head(alloc, &mut out, size(bars), STYLE)?;
    let mut y = EDGE;
    for bar in bars {
        push_bar(alloc, &mut out, bar, y)?;
        y = y.saturating_add(height(bar));
    }
    push_tail(&mut out)?;
    Ok(out)
}

// The width and the height of the picture.
fn size(bars: &[Bar]) -> Point {
    let mut size = Point {
        x: LENGTH.saturating_add(EDGE.saturating_mul(2)),
        y: EDGE,
    };
    for bar in bars {
        size.y = size.y.saturating_add(height(bar));
        size.x = size.x.max(width(bar).saturating_add(EDGE));
    }
    size
}

// The right end of a bar with all that belongs to it.
fn width(bar: &Bar) -> u64 {
    let title = EDGE.saturating_add(text_width(bar.title.len()));
    let mut width = title.max(column_x(bar.rows.as_slice(), bar.rows.len()));
    for span in bar.spans.as_slice() {
        width = width.max(span_x().saturating_add(text_width(span.text.len())));
    }
    width
}

// The height of a bar with all that belongs to it.
fn height(bar: &Bar) -> u64 {
    rows_y(bar, 0)
        .saturating_add(ROW.saturating_mul(row_count(bar.rows.as_slice()) as u64))
        .saturating_add(ROW)
        .saturating_add(GAP.saturating_mul(2))
}

// The top of a bar's spans, given the top of the bar.
fn spans_y(y: u64) -> u64 {
    y.saturating_add(ROW)
        .saturating_add(HEIGHT)
        .saturating_add(ROW)
}

// The top of a bar's table.
fn rows_y(bar: &Bar, y: u64) -> u64 {
    spans_y(y)
        .saturating_add(ROW.saturating_mul(bar.spans.len() as u64))
        .saturating_add(GAP)
}

// The left end of the texts about spans.
fn span_x() -> u64 {
    EDGE.saturating_add(LENGTH).saturating_add(GAP)
}

// The place of an address of a bar.
fn address_x(bar: &Bar, address: u64) -> u64 {
    let far = address.saturating_sub(bar.begin).min(bar.len);
    let scaled = far.saturating_mul(LENGTH) / bar.len.max(1);
    EDGE.saturating_add(scaled)
}

// Appends a bar with all that belongs to it.
fn push_bar(alloc: Global, out: &mut String, bar: &Bar, y: u64) -> Result<(), OutOfMemory> {
    let title = Point {
        x: EDGE,
        y: base(y).saturating_sub(3),
    };
    push_text(alloc, out, "title", title, bar.title.as_str())?;
    let mut free = 0u64;
    for stretch in bar.stretches.as_slice() {
        let top = y.saturating_add(ROW);
        push_stretch(alloc, out, bar, stretch, top)?;
        free = push_address(alloc, out, bar, stretch.begin, top, free)?;
    }
    for (place, span) in bar.spans.as_slice().iter().enumerate() {
        let row = ROW.saturating_mul(place as u64);
        push_span(alloc, out, bar, span, spans_y(y).saturating_add(row))?;
    }
    push_rows(alloc, out, bar, rows_y(bar, y))
}

// Appends a part of a bar, with its names if they fit.
fn push_stretch(
    alloc: Global,
    out: &mut String,
    bar: &Bar,
    stretch: &Stretch,
    y: u64,
) -> Result<(), OutOfMemory> {
    let (at, width) = extent(bar, stretch, y);
    push_rect(alloc, out, class(stretch.owner), at, width, HEIGHT)?;
    let Some(owner) = stretch.owner else {
        return Ok(());
    };
    let group = group_text(alloc, owner)?;
    let number = number_text(alloc, owner.number)?;
    let longest = text_width(group.len().max(number.len()));
    if longest > width {
        return Ok(());
    }
    let x = at.x.saturating_add(width / 2);
    let upper = Point {
        x,
        y: y.saturating_add(17),
    };
    push_text(alloc, out, "middle", upper, group.as_str())?;
    let lower = Point {
        x,
        y: y.saturating_add(33),
    };
    push_text(alloc, out, "middle", lower, number.as_str())
}

// The place of a part of a bar, and its pixels, at least two.
fn extent(bar: &Bar, stretch: &Stretch, y: u64) -> (Point, u64) {
    let x = address_x(bar, stretch.begin);
    let end = address_x(bar, stretch.begin.saturating_add(stretch.len));
    (Point { x, y }, end.saturating_sub(x).max(2))
}

// Appends the address below the beginning of a part, if there is room from `free` on. Returns where
// there is room then.
fn push_address(
    alloc: Global,
    out: &mut String,
    bar: &Bar,
    address: u64,
    y: u64,
    free: u64,
) -> Result<u64, OutOfMemory> {
    let x = address_x(bar, address);
    if x < free {
        return Ok(free);
    }
    let bottom = y.saturating_add(HEIGHT);
    let baseline = bottom.saturating_add(17);
    let end = push_tick(
        alloc,
        out,
        "head",
        Point { x, y: bottom },
        baseline,
        address,
    )?;
    Ok(end.saturating_add(GAP))
}

// Appends a line below a bar, and the text about it.
fn push_span(
    alloc: Global,
    out: &mut String,
    bar: &Bar,
    span: &Span,
    y: u64,
) -> Result<(), OutOfMemory> {
    let (at, width) = extent(bar, &span.stretch, y.saturating_add(7));
    push_rect(alloc, out, class(span.stretch.owner), at, width, 8)?;
    let text = Point {
        x: span_x(),
        y: base(y),
    };
    push_text(alloc, out, "text", text, span.text.as_str())
}

// The left end of a table column; after the last one, the end of the table.
fn column_x(table: &[Column], place: usize) -> u64 {
    let mut x = EDGE.saturating_add(24);
    for column in table.iter().take(place) {
        x = x
            .saturating_add(text_width(column.width()))
            .saturating_add(20);
    }
    x
}

// Appends the table of a bar, with a square for each stretch.
fn push_rows(alloc: Global, out: &mut String, bar: &Bar, y: u64) -> Result<(), OutOfMemory> {
    push_row(alloc, out, bar.rows.as_slice(), None, y)?;
    let mut top = y;
    for (row, stretch) in bar.stretches.as_slice().iter().enumerate() {
        top = top.saturating_add(ROW);
        let square = Point {
            x: EDGE,
            y: top.saturating_add(3),
        };
        push_rect(alloc, out, class(stretch.owner), square, 14, 14)?;
        push_row(alloc, out, bar.rows.as_slice(), Some(row), top)?;
    }
    Ok(())
}

// Appends a row of a table, or the names of its columns.
fn push_row(
    alloc: Global,
    out: &mut String,
    table: &[Column],
    row: Option<usize>,
    y: u64,
) -> Result<(), OutOfMemory> {
    for (place, column) in table.iter().enumerate() {
        let right = text_width(column.width());
        let begin = column_x(table, place);
        let (class, x) = match (column.is_right, row) {
            (true, None) => ("head-right", begin.saturating_add(right)),
            (true, Some(_)) => ("right", begin.saturating_add(right)),
            (false, None) => ("head", begin),
            (false, Some(_)) => ("text", begin),
        };
        let at = Point { x, y: base(y) };
        push_text(alloc, out, class, at, column.word(row))?;
    }
    Ok(())
}

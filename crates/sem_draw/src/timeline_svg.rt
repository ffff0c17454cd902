// Timelines as SVG.
use crate::OutOfMemory;
use crate::lines::number_text;
use crate::svg::{
    Point, push_circle, push_head, push_rect, push_tail, push_text, push_tick, state_class,
    text_width,
};
use crate::timeline::{Moment, Timeline};
use crate::tree::State;
use std::alloc::Global;

/// The left and upper edge of the picture.
const EDGE: u64 = 16;

/// The length, the height and the place of the bar.
const LENGTH: u64 = 640;

const HEIGHT: u64 = 20;

const BAR: u64 = 52;

/// The height of a row, and the place of the first one.
const ROW: u64 = 26;

const TOP: u64 = 124;

/// The place of the line that carries the moments.
const RAIL: u64 = 96;

/// The gap between things side by side.
const GAP: u64 = 24;

/// The style of the classes.
const STYLE: &str =
    "text{font:13px 'DejaVu Sans Mono',Menlo,Consolas,monospace;fill:#1f2430}.name{font-weight:bold;fill:#26418f}.number{fill:#7a8194;text-anchor:end}.line,.tick-text{fill:#7a8194}.tick{stroke:#8d95a8}.none{fill:#ffffff;stroke:#c9ccd4;stroke-dasharray:2 3}.held{fill:#a9d0f5;stroke:#1668c1}.marked{fill:#f6c667;stroke:#b57a00}.way{fill:#bfe5c9;stroke:#1b8a3a;stroke-dasharray:4 3}.gone{fill:#f1f1f3;stroke:#a0a4ae;stroke-dasharray:2 3}";

// The place of the row at that place in the list.
fn row_y(place: usize) -> u64 {
    (place as u64).saturating_mul(ROW).saturating_add(TOP)
}

// The left end of the texts about moments.
fn text_x() -> u64 {
    RAIL.saturating_add(GAP)
}

// The left end of the lines next to them.
fn line_x(timeline: &Timeline) -> u64 {
    let mut longest = 0usize;
    for moment in timeline.moments.as_slice() {
        longest = longest.max(moment.text.len());
    }
    text_x()
        .saturating_add(text_width(longest))
        .saturating_add(GAP)
}

/// The timeline as an SVG picture: a bar of all numbers, and below it a row for each moment.
pub fn timeline_as_svg(alloc: Global, timeline: &Timeline) -> Result<String, OutOfMemory> {
    let mut out = String::new(alloc);
    push_head(alloc, &mut out, size(timeline), STYLE)?;
    let name = Point { x: EDGE, y: 30 };
    push_text(alloc, &mut out, "name", name, timeline.name.as_str())?;
    let text = Point {
        x: EDGE
            .saturating_add(text_width(timeline.name.len()))
            .saturating_add(GAP),
        y: 30,
    };
    push_text(alloc, &mut out, "text", text, timeline.text.as_str())?;
    push_bar(alloc, &mut out, timeline)?;
    let x = line_x(timeline);
    push_rail(alloc, &mut out, timeline)?;
    for (place, moment) in timeline.moments.as_slice().iter().enumerate() {
        push_moment(alloc, &mut out, moment, row_y(place), x)?;
    }
    push_tail(&mut out)?;
    Ok(out)
}

// The width and the height of the picture.
fn size(timeline: &Timeline) -> Point {
    let head = text_width(timeline.name.len().saturating_add(timeline.text.len()));
    let mut width = LENGTH.max(head.saturating_add(GAP));
    let begin = line_x(timeline);
    for moment in timeline.moments.as_slice() {
        width = width.max(begin.saturating_add(text_width(moment.line.len())));
    }
    Point {
        x: width.saturating_add(EDGE.saturating_mul(2)),
        y: row_y(timeline.moments.len()).saturating_add(EDGE),
    }
}

// The place of a number on the bar.
fn number_x(timeline: &Timeline, number: u64) -> u64 {
    let scaled = number.min(timeline.len).saturating_mul(LENGTH) / timeline.len.max(1);
    EDGE.saturating_add(scaled)
}

// Appends the bar: the state of the thing at each number.
fn push_bar(alloc: Global, out: &mut String, timeline: &Timeline) -> Result<(), OutOfMemory> {
    push_rect(
        alloc,
        out,
        "none",
        Point { x: EDGE, y: BAR },
        LENGTH,
        HEIGHT,
    )?;
    let mut free = 0u64;
    for (place, moment) in timeline.moments.as_slice().iter().enumerate() {
        let begin = timeline.begin(place);
        let end = timeline.begin(place.saturating_add(1));
        if begin < end {
            push_part(alloc, out, timeline, (begin, end), moment.state)?;
        }
        if moment.number.is_some() {
            free = push_number(alloc, out, timeline, begin, free)?;
        }
    }
    Ok(())
}

// Appends a part of the bar, from one number up to another.
fn push_part(
    alloc: Global,
    out: &mut String,
    timeline: &Timeline,
    range: (u64, u64),
    state: State,
) -> Result<(), OutOfMemory> {
    let x = number_x(timeline, range.0);
    let width = number_x(timeline, range.1).saturating_sub(x).max(2);
    push_rect(
        alloc,
        out,
        state_class(state),
        Point { x, y: BAR },
        width,
        HEIGHT,
    )
}

// Appends a number below the bar, if there is room from `free` on. Returns where there is room
// then.
fn push_number(
    alloc: Global,
    out: &mut String,
    timeline: &Timeline,
    number: u64,
    free: u64,
) -> Result<u64, OutOfMemory> {
    let x = number_x(timeline, number);
    if x < free {
        return Ok(free);
    }
    let bottom = BAR.saturating_add(HEIGHT);
    let baseline = bottom.saturating_add(18);
    let at = Point { x, y: bottom };
    let end = push_tick(alloc, out, "tick-text", at, baseline, number)?;
    Ok(end.saturating_add(8))
}

// Appends the line that carries the moments, in parts from each to the next one.
fn push_rail(alloc: Global, out: &mut String, timeline: &Timeline) -> Result<(), OutOfMemory> {
    let count = timeline.moments.len();
    for (place, moment) in timeline.moments.as_slice().iter().enumerate() {
        let is_last = place.saturating_add(1) == count;
        if is_last && moment.state == State::Gone {
            continue;
        }
        let at = Point {
            x: RAIL.saturating_sub(3),
            y: row_y(place),
        };
        push_rect(alloc, out, state_class(moment.state), at, 6, ROW)?;
    }
    Ok(())
}

// Appends a moment: its number, its sign on the line, the text about it, and the line next to it.
fn push_moment(
    alloc: Global,
    out: &mut String,
    moment: &Moment,
    y: u64,
    line_x: u64,
) -> Result<(), OutOfMemory> {
    push_circle(
        alloc,
        out,
        state_class(moment.state),
        Point { x: RAIL, y },
        6,
    )?;
    let base = y.saturating_add(5);
    let number = match moment.number {
        Some(number) => number_text(alloc, number)?,
        None => String::from_str(alloc, "start")?,
    };
    let at = Point {
        x: RAIL.saturating_sub(GAP),
        y: base,
    };
    push_text(alloc, out, "number", at, number.as_str())?;
    let at = Point {
        x: text_x(),
        y: base,
    };
    push_text(alloc, out, "text", at, moment.text.as_str())?;
    let at = Point { x: line_x, y: base };
    push_text(alloc, out, "line", at, moment.line.as_str())
}

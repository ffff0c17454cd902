// A chart as text. For every row the code knows which lifelines there are and which messages are on
// their way.
use crate::OutOfMemory;
use crate::cells::{Cell, Sign, Upright, push_cells};
use crate::chart::{Chart, Lane, Mark, Row};
use crate::lines::{WIDTH, number_text, push_blanks, push_right, wrapped};
use std::alloc::Global;

/// The fewest columns left for the labels.
const LABEL: usize = 34;

/// The most columns from a lane to the next one.
const STEP: usize = 9;

/// The fewest columns of the numbers.
const NUMBER: usize = 4;

// A message on its way, and the column in which it goes down.
#[derive(Clone, Copy, Debug)]
struct Track {
    since: u64,
    column: usize,
}

// The places of things, and the lines that go on.
#[derive(Drop)]
struct Layout {
    number_width: usize,
    step: usize,
    lines: Vec<Upright>,
    tracks: Vec<Track>,
    is_plain: bool,
}

// The number of columns for the numbers of the rows.
fn number_width(alloc: Global, chart: &Chart) -> Result<usize, OutOfMemory> {
    let last = chart.rows.last().map_or(0, |row| row.number);
    Ok(number_text(alloc, last)?.len().max(NUMBER))
}

// The most columns of a lane's name.
fn longest_name(alloc: Global, chart: &Chart) -> Result<usize, OutOfMemory> {
    let mut longest = 0;
    for lane in chart.lanes.as_slice() {
        longest = name(alloc, *lane)?.len().max(longest);
    }
    Ok(longest)
}

// The distance between lanes; none if they do not fit.
fn step(alloc: Global, chart: &Chart) -> Result<Option<usize>, OutOfMemory> {
    let numbers = number_width(alloc, chart)?;
    let room = WIDTH.saturating_sub(LABEL.saturating_add(numbers).saturating_add(4));
    let lanes = chart.lanes.len().max(1);
    let widest = (room / lanes).min(STEP);
    let least = longest_name(alloc, chart)?.saturating_add(1).max(4);
    Ok(if widest < least { None } else { Some(widest) })
}

/// Whether the lanes fit into the columns of a text picture.
pub fn fits(alloc: Global, chart: &Chart) -> Result<bool, OutOfMemory> {
    Ok(step(alloc, chart)?.is_some())
}

/// The chart as text of 100 columns, with box characters or without. Lanes that do not fit are cut
/// off.
pub fn chart_as_text(alloc: Global, chart: &Chart, is_plain: bool) -> Result<String, OutOfMemory> {
    let mut out = String::new(alloc);
    let mut layout = Layout {
        number_width: number_width(alloc, chart)?,
        step: step(alloc, chart)?.unwrap_or(4),
        lines: first_lines(alloc, chart)?,
        tracks: Vec::new(alloc),
        is_plain,
    };
    push_head(alloc, &mut out, chart, &layout)?;
    for early in chart.early.as_slice() {
        let column = free_column(&layout, early.from, early.to);
        add_track(&mut layout, early.since, column)?;
    }
    for row in chart.rows.as_slice() {
        push_row(alloc, &mut out, &mut layout, row)?;
    }
    Ok(out)
}

// The lifelines before the first row.
fn first_lines(alloc: Global, chart: &Chart) -> Result<Vec<Upright>, OutOfMemory> {
    let mut lines = Vec::new(alloc);
    for (place, lane) in chart.lanes.as_slice().iter().enumerate() {
        lines.push(match lane {
            Lane::Kernel { .. } => Upright::Kernel,
            Lane::Vpe { .. } if chart.ended.contains(&place) => Upright::None,
            Lane::Vpe { .. } if chart.waiting.contains(&place) => Upright::Waiting,
            Lane::Vpe { .. } => Upright::Idle,
        })?;
    }
    Ok(lines)
}

fn name(alloc: Global, lane: Lane) -> Result<String, OutOfMemory> {
    match lane {
        Lane::Kernel { number } => format!(in alloc; "K{number}"),
        Lane::Vpe { number } => format!(in alloc; "v{number}"),
    }
}

// Appends the line that names the lanes.
fn push_head(
    alloc: Global,
    out: &mut String,
    chart: &Chart,
    layout: &Layout,
) -> Result<(), OutOfMemory> {
    push_blanks(out, layout.number_width.saturating_add(1))?;
    let mut written = 0usize;
    for (place, lane) in chart.lanes.as_slice().iter().enumerate() {
        let name = name(alloc, *lane)?;
        let begins = layout
            .column(place)
            .saturating_sub(name.len().saturating_sub(1) / 2);
        push_blanks(out, begins.saturating_sub(written))?;
        out.push_str(name.as_str())?;
        written = written.max(begins).saturating_add(name.len());
    }
    out.push('\n')
}

impl Layout {
    fn column(&self, lane: usize) -> usize {
        lane.saturating_mul(self.step).saturating_add(2)
    }

    // The number of columns of the lanes.
    fn columns(&self) -> usize {
        self.column(self.lines.len())
    }
}

// A column next to the lane `from`, towards the lane `to`, in which no message goes down.
fn free_column(layout: &Layout, from: usize, to: usize) -> Option<usize> {
    let column = layout.column(from);
    for distance in (2..layout.step).chain(1..2) {
        let candidate = if to > from {
            column.saturating_add(distance)
        } else {
            column.saturating_sub(distance)
        };
        if !layout.tracks.iter().any(|track| track.column == candidate) {
            return Some(candidate);
        }
    }
    None
}

// Notes that the message of that row goes down in the column, if there is one.
fn add_track(layout: &mut Layout, since: u64, column: Option<usize>) -> Result<(), OutOfMemory> {
    if let Some(column) = column {
        layout.tracks.push(Track { since, column })?;
    }
    Ok(())
}

// Takes the column of the message that left in that row; the message no longer goes down.
fn take_track(layout: &mut Layout, since: u64) -> Option<usize> {
    let place = layout.tracks.iter().position(|track| track.since == since)?;
    if place < layout.tracks.len() {
        Some(layout.tracks.remove(place).column)
    } else {
        None
    }
}

// The lifelines, and the messages on their way.
fn standing(alloc: Global, layout: &Layout) -> Result<Vec<Cell>, OutOfMemory> {
    let mut cells = Vec::new(alloc);
    for _ in 0..layout.columns() {
        cells.push(Cell::empty())?;
    }
    for (lane, line) in layout.lines.iter().enumerate() {
        set_upright(&mut cells, layout.column(lane), *line, *line);
    }
    for track in layout.tracks.as_slice() {
        set_upright(&mut cells, track.column, Upright::Message, Upright::Message);
    }
    Ok(cells)
}

// Draws a vertical line above and below a column.
fn set_upright(cells: &mut [Cell], column: usize, above: Upright, below: Upright) {
    if let Some(cell) = cells.get_mut(column) {
        cell.above = above;
        cell.below = below;
    }
}

// Draws a horizontal line from a column to another.
fn set_level(cells: &mut [Cell], from: usize, to: usize, is_message: bool) {
    let first = from.min(to);
    let last = from.max(to);
    for (column, cell) in cells.iter_mut().enumerate() {
        if first <= column && column < last {
            cell.right = true;
            cell.is_message = is_message;
        }
        if first < column && column <= last {
            cell.left = true;
            cell.is_message = is_message;
        }
    }
}

// Puts the head of an arrow next to the column where it ends, without touching it.
fn set_head(cells: &mut [Cell], from: usize, to: usize) {
    let (beside, sign) = if from < to {
        (to.saturating_sub(1), Sign::RightHead)
    } else {
        (to.saturating_add(1), Sign::LeftHead)
    };
    set_sign(cells, beside, sign);
    if let Some(cell) = cells.get_mut(to) {
        cell.left = cell.left && from > to;
        cell.right = cell.right && from < to;
    }
}

// Draws an arrow from a lane to another.
fn set_arrow(cells: &mut [Cell], layout: &Layout, from: usize, to: usize) {
    let (from, to) = (layout.column(from), layout.column(to));
    set_level(cells, from, to, false);
    set_head(cells, from, to);
}

// Puts a sign at a column.
fn set_sign(cells: &mut [Cell], column: usize, sign: Sign) {
    if let Some(cell) = cells.get_mut(column) {
        cell.sign = sign;
    }
}

// Appends the lines of a row.
fn push_row(
    alloc: Global,
    out: &mut String,
    layout: &mut Layout,
    row: &Row,
) -> Result<(), OutOfMemory> {
    let mut cells = standing(alloc, layout)?;
    draw(&mut cells, layout, row)?;
    let width = WIDTH.saturating_sub(
        layout
            .number_width
            .saturating_add(layout.columns())
            .saturating_add(2),
    );
    let labels = wrapped(alloc, row.label.as_str(), width)?;
    for (at, label) in labels.as_slice().iter().enumerate() {
        if at == 0 {
            push_right(alloc, out, row.number, layout.number_width)?;
        } else {
            push_blanks(out, layout.number_width)?;
            cells = standing(alloc, layout)?;
        }
        out.push(' ')?;
        push_cells(out, cells.as_slice(), layout.is_plain)?;
        out.push_str(label.as_str())?;
        trim(out);
        out.push('\n')?;
    }
    Ok(())
}

// Takes blanks off the end.
fn trim(out: &mut String) {
    for _ in 0..WIDTH {
        if !out.ends_with(' ') {
            return;
        }
        let _ = out.pop();
    }
}

// Draws what the row shows, and notes what goes on after it.
fn draw(cells: &mut [Cell], layout: &mut Layout, row: &Row) -> Result<(), OutOfMemory> {
    match row.mark {
        Mark::Call {
            vpe,
            kernel,
            is_answered,
        } => {
            set_arrow(cells, layout, vpe, kernel);
            if is_answered {
                set_head(cells, layout.column(kernel), layout.column(vpe));
            } else {
                set_line(layout, vpe, Upright::Waiting);
            }
        }
        Mark::Ask { kernel, vpe } => set_arrow(cells, layout, kernel, vpe),
        Mark::Answer { kernel, vpe } => {
            set_arrow(cells, layout, kernel, vpe);
            set_line(layout, vpe, Upright::Idle);
        }
        Mark::Sent {
            from,
            to,
            until,
            ..
        } => send(cells, layout, (from, to), row.number, until)?,
        Mark::Arrived {
            from,
            to,
            since,
            ..
        } => arrive(cells, layout, (from, to), since),
        Mark::Dot { kernel } => set_sign(cells, layout.column(kernel), Sign::Dot),
        Mark::Kill { vpe } => set_sign(cells, layout.column(vpe), Sign::Cross),
        Mark::Nothing => {}
    }
    if let Some(lane) = row.ends {
        set_line(layout, lane, Upright::None);
    }
    Ok(())
}

// From here on the lifeline of a lane is that one.
fn set_line(layout: &mut Layout, lane: usize, line: Upright) {
    if let Some(place) = layout.lines.get_mut(lane) {
        *place = line;
    }
}

// Draws a message that leaves the lane, and goes down if a column is free. If it does not arrive in
// the chart, only its beginning is drawn.
fn send(
    cells: &mut [Cell],
    layout: &mut Layout,
    lanes: (usize, usize),
    number: u64,
    until: Option<u64>,
) -> Result<(), OutOfMemory> {
    let from = layout.column(lanes.0);
    let column = match until {
        Some(_) => free_column(layout, lanes.0, lanes.1),
        None => None,
    };
    match column {
        Some(column) => {
            set_level(cells, from, column, true);
            set_upright(cells, column, Upright::None, Upright::Message);
            add_track(layout, number, Some(column))
        }
        None => {
            let end = if lanes.0 < lanes.1 {
                from.saturating_add(2)
            } else {
                from.saturating_sub(2)
            };
            set_level(cells, from, end, true);
            set_head(cells, from, end);
            Ok(())
        }
    }
}

// Draws a message that arrives at the lane.
fn arrive(cells: &mut [Cell], layout: &mut Layout, lanes: (usize, usize), since: u64) {
    let to = layout.column(lanes.1);
    match take_track(layout, since) {
        Some(column) => {
            set_level(cells, column, to, true);
            set_upright(cells, column, Upright::Message, Upright::None);
            set_head(cells, column, to);
        }
        None => {
            let from = layout.column(lanes.0);
            set_level(cells, from, to, true);
            set_head(cells, from, to);
        }
    }
}

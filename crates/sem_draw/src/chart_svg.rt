// A chart as SVG. Time goes down; a message is a slanted arrow from where it leaves to where it
// arrives.
use crate::OutOfMemory;
use crate::chart::{Chart, Early, Family, Lane, Mark, Row};
use crate::svg::{Point, push_circle, push_head, push_line, push_rect, push_tail, push_text};
use std::alloc::Global;

/// The height of a row, and the place of the first one.
const ROW: u64 = 22;

const TOP: u64 = 74;

/// The distance between lanes, and the place of the first one.
const STEP: u64 = 64;

const LEFT: u64 = 96;

/// The pixels of a label's character.
const CHARACTER: u64 = 8;

/// The style of the classes, and the heads of the arrows.
const STYLE: &str =
    "text{font:13px 'DejaVu Sans Mono',Menlo,Consolas,monospace;fill:#1f2430}.number{fill:#7a8194;text-anchor:end}.kernel-name{font-weight:bold;fill:#26418f}.vpe-name{text-anchor:middle;fill:#3c4252}.group{fill:#f3f5fa;stroke:#d8deec}.grid{stroke:#e3e7f0}.kernel{stroke:#26418f;stroke-width:3}.vpe{stroke:#8d95a8;stroke-width:1.5}.waits{fill:#ffd98a;stroke:#b57a00}.local{stroke:#3c4252;stroke-width:1.5;marker-end:url(#local)}.both{stroke:#3c4252;stroke-width:1.5;marker-end:url(#local);marker-start:url(#local)}.obtain{stroke:#1668c1;stroke-width:2;marker-end:url(#obtain)}.delegate{stroke:#1b8a3a;stroke-width:2;marker-end:url(#delegate)}.revoke{stroke:#c62828;stroke-width:2;marker-end:url(#revoke)}.other{stroke:#7b3fb5;stroke-width:2;marker-end:url(#other)}.dot{fill:#26418f}.kill{stroke:#c62828;stroke-width:3}";

/// The heads of the arrows.
const HEADS: &str =
    "<defs><marker id=\"local\" viewBox=\"0 0 8 8\" refX=\"8\" refY=\"4\" markerWidth=\"9\" markerHeight=\"9\" markerUnits=\"userSpaceOnUse\" orient=\"auto-start-reverse\"><path d=\"M0 0L8 4L0 8z\" fill=\"#3c4252\"/></marker><marker id=\"obtain\" viewBox=\"0 0 8 8\" refX=\"8\" refY=\"4\" markerWidth=\"11\" markerHeight=\"11\" markerUnits=\"userSpaceOnUse\" orient=\"auto\"><path d=\"M0 0L8 4L0 8z\" fill=\"#1668c1\"/></marker><marker id=\"delegate\" viewBox=\"0 0 8 8\" refX=\"8\" refY=\"4\" markerWidth=\"11\" markerHeight=\"11\" markerUnits=\"userSpaceOnUse\" orient=\"auto\"><path d=\"M0 0L8 4L0 8z\" fill=\"#1b8a3a\"/></marker><marker id=\"revoke\" viewBox=\"0 0 8 8\" refX=\"8\" refY=\"4\" markerWidth=\"11\" markerHeight=\"11\" markerUnits=\"userSpaceOnUse\" orient=\"auto\"><path d=\"M0 0L8 4L0 8z\" fill=\"#c62828\"/></marker><marker id=\"other\" viewBox=\"0 0 8 8\" refX=\"8\" refY=\"4\" markerWidth=\"11\" markerHeight=\"11\" markerUnits=\"userSpaceOnUse\" orient=\"auto\"><path d=\"M0 0L8 4L0 8z\" fill=\"#7b3fb5\"/></marker></defs>\n";

// The place of a lane.
fn lane_x(lane: usize) -> u64 {
    (lane as u64).saturating_mul(STEP).saturating_add(LEFT)
}

// The place of a row.
fn row_y(row: usize) -> u64 {
    (row as u64).saturating_mul(ROW).saturating_add(TOP)
}

// The left end of the labels.
fn label_x(chart: &Chart) -> u64 {
    lane_x(chart.lanes.len()).saturating_sub(16)
}

// The width and the height of the picture.
fn size(chart: &Chart) -> Point {
    let mut longest = 8u64;
    for row in chart.rows.as_slice() {
        longest = longest.max(row.label.len() as u64);
    }
    let labels = longest.saturating_mul(CHARACTER).saturating_add(24);
    Point {
        x: label_x(chart).saturating_add(labels),
        y: bottom(chart).saturating_add(16),
    }
}

// The lower end of the lifelines.
fn bottom(chart: &Chart) -> u64 {
    row_y(chart.rows.len())
}

// The class of a message.
fn class(family: Family) -> &'static str {
    match family {
        Family::Obtain => "obtain",
        Family::Delegate => "delegate",
        Family::Revoke => "revoke",
        Family::Other => "other",
    }
}

/// The chart as an SVG picture.
pub fn chart_as_svg(alloc: Global, chart: &Chart) -> Result<String, OutOfMemory> {
    let mut out = String::new(alloc);
    push_head(alloc, &mut out, size(chart), STYLE)?;
    out.push_str(HEADS)?;
    push_groups(alloc, &mut out, chart)?;
    push_grid(alloc, &mut out, chart)?;
    push_lifelines(alloc, &mut out, chart)?;
    for early in chart.early.as_slice() {
        push_early(alloc, &mut out, chart, early)?;
    }
    for (place, row) in chart.rows.as_slice().iter().enumerate() {
        push_mark(alloc, &mut out, chart, place, row)?;
    }
    push_tail(&mut out)?;
    Ok(out)
}

// Appends a field for each kernel and its VPEs, and the names of the lanes.
fn push_groups(alloc: Global, out: &mut String, chart: &Chart) -> Result<(), OutOfMemory> {
    let high = bottom(chart).saturating_sub(8);
    for (place, lane) in chart.lanes.as_slice().iter().enumerate() {
        if let Lane::Kernel { .. } = lane {
            let count = group_size(chart, place) as u64;
            let at = Point {
                x: lane_x(place).saturating_sub(30),
                y: 8,
            };
            let width = count.saturating_mul(STEP).saturating_sub(8);
            push_rect(alloc, out, "group", at, width, high)?;
        }
    }
    for (place, lane) in chart.lanes.as_slice().iter().enumerate() {
        let is_alone = group_size(chart, place) == 1;
        push_name(alloc, out, lane_x(place), *lane, is_alone)?;
    }
    Ok(())
}

// Appends the name of a lane. The field of a kernel without VPEs has room for a short one.
fn push_name(
    alloc: Global,
    out: &mut String,
    x: u64,
    lane: Lane,
    is_alone: bool,
) -> Result<(), OutOfMemory> {
    match lane {
        Lane::Kernel { number } => {
            let word = if is_alone { "K" } else { "kernel " };
            let name = format!(in alloc; "{word}{number}")?;
            let at = Point {
                x: x.saturating_sub(22),
                y: 28,
            };
            push_text(alloc, out, "kernel-name", at, name.as_str())
        }
        Lane::Vpe { number } => {
            let name = format!(in alloc; "VPE {number}")?;
            push_text(alloc, out, "vpe-name", Point { x, y: 46 }, name.as_str())
        }
    }
}

// How many lanes the kernel at that place has, its own and those of its VPEs.
fn group_size(chart: &Chart, place: usize) -> usize {
    let mut count = 1usize;
    for lane in chart.lanes.as_slice().iter().skip(place.saturating_add(1)) {
        match lane {
            Lane::Vpe { .. } => count = count.saturating_add(1),
            Lane::Kernel { .. } => return count,
        }
    }
    count
}

// Appends a faint line, the number and the label of each row.
fn push_grid(alloc: Global, out: &mut String, chart: &Chart) -> Result<(), OutOfMemory> {
    let x = label_x(chart);
    for (place, row) in chart.rows.as_slice().iter().enumerate() {
        let y = row_y(place);
        push_line(alloc, out, "grid", Point { x: 56, y }, Point { x, y })?;
        let number = format!(in alloc; "{}", row.number)?;
        let base = y.saturating_add(4);
        push_text(
            alloc,
            out,
            "number",
            Point { x: 48, y: base },
            number.as_str(),
        )?;
        let at = Point {
            x: x.saturating_add(8),
            y: base,
        };
        push_text(alloc, out, "label", at, row.label.as_str())?;
    }
    Ok(())
}

// Appends the lifelines, and over them the waits of VPEs.
fn push_lifelines(alloc: Global, out: &mut String, chart: &Chart) -> Result<(), OutOfMemory> {
    for (place, lane) in chart.lanes.as_slice().iter().enumerate() {
        let class = match lane {
            Lane::Kernel { .. } => "kernel",
            Lane::Vpe { .. } => "vpe",
        };
        let x = lane_x(place);
        let from = Point { x, y: 54 };
        let to = Point {
            x,
            y: end_of(chart, place),
        };
        if !chart.ended.contains(&place) {
            push_line(alloc, out, class, from, to)?;
        }
        push_waits(alloc, out, chart, place)?;
    }
    Ok(())
}

// The end of a lane's lifeline.
fn end_of(chart: &Chart, lane: usize) -> u64 {
    for (place, row) in chart.rows.as_slice().iter().enumerate() {
        if row.ends == Some(lane) {
            return row_y(place);
        }
    }
    bottom(chart)
}

// Appends the waits of a lane's VPE.
fn push_waits(
    alloc: Global,
    out: &mut String,
    chart: &Chart,
    lane: usize,
) -> Result<(), OutOfMemory> {
    let mut since = if chart.waiting.contains(&lane) {
        Some(54)
    } else {
        None
    };
    for (place, row) in chart.rows.as_slice().iter().enumerate() {
        let y = row_y(place);
        if let Mark::Call {
            vpe,
            is_answered: false,
            ..
        } = row.mark
            && vpe == lane
        {
            since = Some(y);
        }
        let is_answered = match row.mark {
            Mark::Answer { vpe, .. } => vpe == lane,
            _ => false,
        };
        if (is_answered || row.ends == Some(lane))
            && let Some(from) = since
        {
            push_wait(alloc, out, lane, from, y)?;
            since = None;
        }
    }
    match since {
        Some(from) => push_wait(alloc, out, lane, from, bottom(chart)),
        None => Ok(()),
    }
}

// Appends one wait of a lane's VPE.
fn push_wait(
    alloc: Global,
    out: &mut String,
    lane: usize,
    from: u64,
    to: u64,
) -> Result<(), OutOfMemory> {
    let at = Point {
        x: lane_x(lane).saturating_sub(4),
        y: from,
    };
    push_rect(alloc, out, "waits", at, 8, to.saturating_sub(from))
}

// Appends a message that left before the first row, at the place where it arrives in the chart.
fn push_early(
    alloc: Global,
    out: &mut String,
    chart: &Chart,
    early: &Early,
) -> Result<(), OutOfMemory> {
    for (place, row) in chart.rows.as_slice().iter().enumerate() {
        if let Mark::Arrived { since, to, .. } = row.mark
            && since == early.since
        {
            let begin = Point {
                x: lane_x(early.from),
                y: 54,
            };
            let end = Point {
                x: lane_x(to),
                y: row_y(place),
            };
            return push_line(alloc, out, class(early.family), begin, end);
        }
    }
    Ok(())
}

// Appends what the row at that place shows.
fn push_mark(
    alloc: Global,
    out: &mut String,
    chart: &Chart,
    place: usize,
    row: &Row,
) -> Result<(), OutOfMemory> {
    let y = row_y(place);
    match row.mark {
        Mark::Call {
            vpe,
            kernel,
            is_answered,
        } => {
            let class = if is_answered { "both" } else { "local" };
            push_level(alloc, out, class, (vpe, kernel), y)
        }
        Mark::Ask { kernel, vpe } | Mark::Answer { kernel, vpe } => {
            push_level(alloc, out, "local", (kernel, vpe), y)
        }
        Mark::Sent {
            from,
            to,
            until,
            family,
        } => {
            let end = match until {
                Some(number) => arrival(chart, number, to),
                None => leaving(from, to, y),
            };
            let begin = Point { x: lane_x(from), y };
            push_line(alloc, out, class(family), begin, end)
        }
        Mark::Dot { kernel } => push_circle(
            alloc,
            out,
            "dot",
            Point {
                x: lane_x(kernel),
                y,
            },
            6,
        ),
        Mark::Kill { vpe } => push_cross(alloc, out, lane_x(vpe), y),
        Mark::Arrived { .. } | Mark::Nothing => Ok(()),
    }
}

// Appends a horizontal arrow between two lanes.
fn push_level(
    alloc: Global,
    out: &mut String,
    class: &str,
    lanes: (usize, usize),
    y: u64,
) -> Result<(), OutOfMemory> {
    let from = Point {
        x: lane_x(lanes.0),
        y,
    };
    let to = Point {
        x: lane_x(lanes.1),
        y,
    };
    push_line(alloc, out, class, from, to)
}

// The place where a message arrives in the row of that number; below the last row if there is no
// such row.
fn arrival(chart: &Chart, number: u64, to: usize) -> Point {
    let place = match chart
        .rows
        .as_slice()
        .binary_search_by_key(&number, |row| row.number)
    {
        Ok(place) => place,
        Err(_) => chart.rows.len(),
    };
    Point {
        x: lane_x(to),
        y: row_y(place),
    }
}

// The end of the arrow of a message that does not arrive in the chart.
fn leaving(from: usize, to: usize, y: u64) -> Point {
    let x = lane_x(from);
    Point {
        x: if from < to {
            x.saturating_add(28)
        } else {
            x.saturating_sub(28)
        },
        y: y.saturating_add(10),
    }
}

// Appends the cross of a kill.
fn push_cross(alloc: Global, out: &mut String, x: u64, y: u64) -> Result<(), OutOfMemory> {
    let (left, right) = (x.saturating_sub(6), x.saturating_add(6));
    let (above, below) = (y.saturating_sub(6), y.saturating_add(6));
    let one = Point { x: left, y: above };
    push_line(alloc, out, "kill", one, Point { x: right, y: below })?;
    let other = Point { x: left, y: below };
    push_line(alloc, out, "kill", other, Point { x: right, y: above })
}

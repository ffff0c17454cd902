// A message chart as a sequence diagram of Mermaid, which draws a message where it arrives.
use sem_draw::{Chart, Lane, Mark, Row};
use sem_key::OutOfMemory;
use std::alloc::Global;

/// The chart as a sequence diagram.
pub fn mermaid(alloc: Global, chart: &Chart) -> Result<String, OutOfMemory> {
    let mut out = String::from_str(alloc, "sequenceDiagram\n")?;
    for lane in chart.lanes.as_slice() {
        let line = match lane {
            Lane::Kernel { number } => format!(in alloc; "    participant K{number}\n")?,
            Lane::Vpe { number } => format!(in alloc; "    actor v{number}\n")?,
        };
        out.push_str(line.as_str())?;
    }
    for row in chart.rows.as_slice() {
        push_row(alloc, &mut out, chart.lanes.as_slice(), row)?;
    }
    Ok(out)
}

// Appends the lines of a row.
fn push_row(alloc: Global, out: &mut String, lanes: &[Lane], row: &Row) -> Result<(), OutOfMemory> {
    let number = row.number;
    let said = escaped(alloc, row.label.as_str())?;
    let line = match row.mark {
        Mark::Call { vpe, kernel, .. } => {
            let (vpe, kernel) = (name(alloc, lanes, vpe)?, name(alloc, lanes, kernel)?);
            format!(in alloc; "    {vpe}->>{kernel}: {number} {said}\n")?
        }
        Mark::Ask { kernel, vpe } => {
            let (vpe, kernel) = (name(alloc, lanes, vpe)?, name(alloc, lanes, kernel)?);
            format!(in alloc; "    {kernel}->>{vpe}: {number} {said}\n")?
        }
        Mark::Answer { kernel, vpe } => {
            let (vpe, kernel) = (name(alloc, lanes, vpe)?, name(alloc, lanes, kernel)?);
            format!(in alloc; "    {kernel}-->>{vpe}: {number} {said}\n")?
        }
        Mark::Arrived { from, to, .. } => {
            let (from, to) = (name(alloc, lanes, from)?, name(alloc, lanes, to)?);
            format!(in alloc; "    {from}->>{to}: {number} {said}\n")?
        }
        Mark::Sent { from, .. } => note(alloc, lanes, from, number, said.as_str())?,
        Mark::Dot { kernel } => note(alloc, lanes, kernel, number, said.as_str())?,
        Mark::Kill { vpe } => note(alloc, lanes, vpe, number, said.as_str())?,
        Mark::Nothing => return Ok(()),
    };
    out.push_str(line.as_str())
}

fn note(
    alloc: Global,
    lanes: &[Lane],
    lane: usize,
    number: u64,
    said: &str,
) -> Result<String, OutOfMemory> {
    let lane = name(alloc, lanes, lane)?;
    format!(in alloc; "    Note over {lane}: {number} {said}\n")
}

// The name of the lane at that place; `others` for a kernel that is not shown.
fn name(alloc: Global, lanes: &[Lane], place: usize) -> Result<String, OutOfMemory> {
    match lanes.get(place) {
        Some(Lane::Kernel { number }) => format!(in alloc; "K{number}"),
        Some(Lane::Vpe { number }) => format!(in alloc; "v{number}"),
        None => String::from_str(alloc, "others"),
    }
}

// The text; characters that Mermaid reads as the end of a line or of a name are written by number.
fn escaped(alloc: Global, text: &str) -> Result<String, OutOfMemory> {
    let mut out = String::new(alloc);
    for letter in text.chars() {
        match letter {
            ';' => out.push_str("#59;")?,
            '#' => out.push_str("#35;")?,
            _ => out.push(letter)?,
        }
    }
    Ok(out)
}

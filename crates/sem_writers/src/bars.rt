// An area as a drawable bar.
ghost use Rattle.std.specs.Prelude.{◌≤◌};

use crate::areas::Area;
use crate::cells::cells_of;
use crate::columns::{note_columns, row_columns};
use crate::holdings::Holdings;
use crate::rows::Written;
use sem_draw::{Bar, CELLS, Owner, Span, Stretch};
use sem_hint::key_text;
use sem_key::{ADDRESSES, OutOfMemory};
use sem_mem::{Access, Look};
use sem_msg::Setup;
use std::alloc::Global;

/// A part of an area: a run, or addresses that were never written.
#[derive(Clone, Copy, Debug)]
pub struct Part {
    pub begin: u64,
    pub len: u64,
    pub written: Option<Written>,
}

/// A read of an area, and what it found.
#[derive(Clone, Copy, Debug)]
pub struct Found {
    pub access: Access,
    pub look: Look,
    /// The access that wrote the newest.
    pub writer: Option<Access>,
}

/// The bar of an area, with `found` as the reads of it. `vpes` are all that have colours.
pub fn bar_of(
    alloc: Global,
    setup: &Setup,
    area: &Area,
    holdings: &Holdings,
    found: &[Found],
    vpes: &[u16],
) -> Result<Bar, OutOfMemory> {
    let parts = parts_of(alloc, area, holdings.rows.as_slice())?;
    let mut stretches = Vec::new(alloc);
    for part in parts.as_slice() {
        stretches.push(Stretch {
            begin: part.begin,
            len: part.len,
            owner: part.written.and_then(|row| owner_of(&row, vpes)),
        })?;
    }
    Ok(Bar {
        begin: area.base,
        len: area.len,
        title: title_of(alloc, setup, area)?,
        scale: scale_of(alloc, area)?,
        cells: owners_of(alloc, area, holdings, vpes)?,
        stretches,
        rows: row_columns(alloc, parts.as_slice())?,
        spans: spans_of(alloc, found, vpes)?,
        notes: note_columns(alloc, found)?,
    })
}

// The parts of an area. `rows` has its runs and others.
fn parts_of(alloc: Global, area: &Area, rows: &[Written]) -> Result<Vec<Part>, OutOfMemory> {
    let mut parts = Vec::new(alloc);
    let mut begin = area.base;
    for row in rows {
        if row.run.base >= area.base && row.run.base < area.end() {
            push_gap(&mut parts, begin, row.run.base)?;
            parts.push(Part {
                begin: row.run.base,
                len: row.run.len,
                written: Some(*row),
            })?;
            begin = row.run.base.saturating_add(row.run.len);
        }
    }
    push_gap(&mut parts, begin, area.end())?;
    Ok(parts)
}

// Appends what was never written from one address up to another.
fn push_gap(parts: &mut Vec<Part>, begin: u64, end: u64) -> Result<(), OutOfMemory> {
    if begin < end {
        parts.push(Part {
            begin,
            len: end.saturating_sub(begin),
            written: None,
        })?;
    }
    Ok(())
}

// The colour of a VPE.
fn color_of(vpes: &[u16], vpe: u16) -> usize {
    vpes.iter().position(|one| *one == vpe).unwrap_or(0)
}

// The owner of a run.
fn owner_of(row: &Written, vpes: &[u16]) -> Option<Owner> {
    let writer = row.writer?;
    Some(Owner {
        color: color_of(vpes, writer.vpe),
        group: u64::from(writer.vpe),
        number: writer.entry,
    })
}

// The owners of the cells of an area.
fn owners_of(
    alloc: Global,
    area: &Area,
    holdings: &Holdings,
    vpes: &[u16],
) -> Result<Vec<Option<Owner>>, OutOfMemory> {
    let mut owners = Vec::new(alloc);
    let base = area.base.min(ADDRESSES);
    let len = area.end().min(ADDRESSES).saturating_sub(base);
    let size = cell_size(len);
    for cell in cells_of(alloc, &holdings.memory, base, len, size)?.as_slice() {
        owners.push(newest_owner(holdings.rows.as_slice(), cell.newest, vpes))?;
    }
    Ok(owners)
}

/// The number of addresses in a cell of a range.
pub fn cell_size(len: u64) -> u32
    ensures { 1 ≤ result }
{
    let size = len.min(ADDRESSES).div_ceil(CELLS as u64);
    size.max(1) as u32
}

// The VPE that wrote by the entry.
fn newest_owner(rows: &[Written], newest: Option<u64>, vpes: &[u16]) -> Option<Owner> {
    let entry = newest?;
    let row = rows.iter().find(|row| row.run.entry == entry)?;
    owner_of(row, vpes)
}

// The title above the bar of an area.
fn title_of(alloc: Global, setup: &Setup, area: &Area) -> Result<String, OutOfMemory> {
    let (base, len) = (area.base, area.len);
    let mut text = format!(in alloc; "{len} bytes from {base};")?;
    let mut begin = if area.roots.len() > 1 {
        " roots"
    } else {
        " root"
    };
    for key in area.roots.as_slice() {
        let (vpe, kernel) = (key.vpe, setup.kernel_of(key.vpe));
        let name = key_text(alloc, key)?;
        text.push_str(format!(in alloc; "{begin} {name} of v{vpe} of K{kernel}")?.as_str())?;
        begin = ",";
    }
    Ok(text)
}

// The text about how many addresses a cell of an area has.
fn scale_of(alloc: Global, area: &Area) -> Result<String, OutOfMemory> {
    let size = cell_size(area.len);
    format!(in alloc; "{size} bytes a cell")
}

// The lines of the reads below a bar.
fn spans_of(alloc: Global, found: &[Found], vpes: &[u16]) -> Result<Vec<Span>, OutOfMemory> {
    let mut spans = Vec::new(alloc);
    for one in found {
        let access = one.access;
        spans.push(Span {
            stretch: Stretch {
                begin: access.base,
                len: u64::from(access.len),
                owner: Some(Owner {
                    color: color_of(vpes, access.vpe),
                    group: u64::from(access.vpe),
                    number: access.entry,
                }),
            },
            text: span_text(alloc, one)?,
        })?;
    }
    Ok(spans)
}

// The text about a read.
fn span_text(alloc: Global, found: &Found) -> Result<String, OutOfMemory> {
    let (entry, vpe, base) = (found.access.entry, found.access.vpe, found.access.base);
    let (len, written) = (found.access.len, found.look.written);
    let key = key_text(alloc, &found.access.key)?;
    let mut text = format!(in alloc;
        "{entry}: v{vpe} reads {len} from {base} through {key}; {written} written"
    )?;
    if let Some(writer) = found.writer {
        let (entry, vpe) = (writer.entry, writer.vpe);
        text.push_str(format!(in alloc; ", the newest in {entry} by v{vpe}")?.as_str())?;
    }
    Ok(text)
}

// The tables of a bar: its parts, and its reads.
use crate::bars::{Found, Part};
use sem_draw::Column;
use sem_hint::key_text;
use sem_key::OutOfMemory;
use sem_mem::Access;
use std::alloc::Global;

/// The table of the parts of an area.
pub fn row_columns(alloc: Global, parts: &[Part]) -> Result<Vec<Column>, OutOfMemory> {
    let mut first = Column::new(alloc, "first", true);
    let mut length = Column::new(alloc, "bytes", true);
    let mut entry = Column::new(alloc, "entry", true);
    let mut writer = Column::new(alloc, "written by", false);
    for part in parts {
        first.words.push(number(alloc, part.begin)?)?;
        length.words.push(number(alloc, part.len)?)?;
        let Some(row) = part.written else {
            entry.words.push(String::new(alloc))?;
            writer.words.push(String::from_str(alloc, "nobody")?)?;
            continue;
        };
        entry.words.push(number(alloc, row.run.entry)?)?;
        writer.words.push(match row.writer {
            Some(access) => through(alloc, &access)?,
            None => String::new(alloc),
        })?;
    }
    let mut table = Vec::new(alloc);
    table.push(first)?;
    table.push(length)?;
    table.push(entry)?;
    table.push(writer)?;
    Ok(table)
}

/// The table of reads.
pub fn note_columns(alloc: Global, found: &[Found]) -> Result<Vec<Column>, OutOfMemory> {
    let mut first = Column::new(alloc, "first", true);
    let mut length = Column::new(alloc, "bytes", true);
    let mut entry = Column::new(alloc, "entry", true);
    let mut reader = Column::new(alloc, "read by", false);
    let mut written = Column::new(alloc, "written", true);
    let mut newest = Column::new(alloc, "newest", false);
    for one in found {
        first.words.push(number(alloc, one.access.base)?)?;
        length
            .words
            .push(number(alloc, u64::from(one.access.len))?)?;
        entry.words.push(number(alloc, one.access.entry)?)?;
        reader.words.push(through(alloc, &one.access)?)?;
        written.words.push(number(alloc, one.look.written)?)?;
        newest.words.push(newest_text(alloc, one)?)?;
    }
    let mut table = Vec::new(alloc);
    table.push(first)?;
    table.push(length)?;
    table.push(entry)?;
    table.push(reader)?;
    table.push(written)?;
    table.push(newest)?;
    Ok(table)
}

fn number(alloc: Global, number: u64) -> Result<String, OutOfMemory> {
    format!(in alloc; "{number}")
}

// The VPE that made an access, and the key it went through.
fn through(alloc: Global, access: &Access) -> Result<String, OutOfMemory> {
    let vpe = access.vpe;
    let key = key_text(alloc, &access.key)?;
    format!(in alloc; "v{vpe} through {key}")
}

// The newest entry that a read found, and the VPE that wrote it.
fn newest_text(alloc: Global, found: &Found) -> Result<String, OutOfMemory> {
    let Some(newest) = found.look.newest else {
        return Ok(String::new(alloc));
    };
    match found.writer {
        Some(writer) => {
            let vpe = writer.vpe;
            format!(in alloc; "{newest} by v{vpe}")
        }
        None => number(alloc, newest),
    }
}

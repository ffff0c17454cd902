// The equal parts of a range of addresses that a picture shows.
ghost use Rattle.std.specs.Prelude.{◌≡◌, ◌+◌, ◌≤◌, ◌<◌, All, Some, IfOk};
ghost use Rattle.sem_key.specs.declared.limits.TheConstants.{ADDRESSES};
ghost use Rattle.sem_access.specs.Runs.{entry_at};
ghost use Rattle.sem_writers.specs.Cells.{cells_end, TellsNewest};

use sem_key::OutOfMemory;
use sem_mem::Memory;
use std::alloc::Global;

/// A part of a range, and the newest of the last writes of its addresses.
#[derive(Clone, Copy, Debug, PartialEq, Eq)]
pub struct Cell {
    pub begin: u64,
    pub len: u64,
    pub newest: Option<u64>,
}

/// The range in parts of `size` addresses; the last may be shorter. The parts adjoin and have all
/// addresses of the range.
///
/// The range must end within 4 GiB.
pub fn cells_of(
    alloc: Global,
    memory: &Memory,
    base: u64,
    len: u64,
    size: u32,
) -> Result<Vec<Cell>, OutOfMemory>
    requires range { base + len ≤ ADDRESSES }
    requires some { 1 ≤ size }
    ensures whole { IfOk result (λ cells. cells_end base cells.items ≡ Some (base + len)) }
    ensures newest { IfOk result (λ cells. All (TellsNewest (entry_at memory.now)) cells.items) }
{
    let end = base + len;
    let mut begin = base;
    let mut cells = Vec::new(alloc);
    for _ in 0..len {
        if begin >= end {
            break;
        }
        let cell = cell_at(memory, begin, end, size);
        cells.push(cell)?;
        begin += cell.len;
    }
    Ok(cells)
}

// The part that begins at that address.
fn cell_at(memory: &Memory, begin: u64, end: u64, size: u32) -> Cell
    requires some { 1 ≤ size }
    requires before { begin < end }
    requires range { end ≤ ADDRESSES }
    ensures begin { result.begin ≡ begin }
    ensures within { begin + result.len ≤ end }
    ensures newest { TellsNewest (entry_at memory.now) result }
{
    let len = (end - begin).min(u64::from(size)) as u32;
    Cell {
        begin,
        len: u64::from(len),
        newest: memory.look(begin, len).newest,
    }
}

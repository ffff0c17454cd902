// The rows of a chart before they are drawn.
ghost use Rattle.std.specs.Prelude.{◌≡◌, ◌≤◌, ◌-◌, map, length, IfOk};
ghost use Rattle.std.specs.List.{range_with_len};
ghost use Rattle.sem_chart.specs.Numbered.{entries_between};

use sem_key::OutOfMemory;
use sem_msg::Entry;
use std::alloc::Global;

/// An entry and its number.
#[derive(Clone, Copy, Debug)]
pub struct NumberedEntry {
    pub number: usize,
    pub entry: Entry,
}

/// The entries from the entry `from` on, up to the one before the entry `to`, each with its number.
pub fn chart_rows(
    alloc: Global,
    entries: &[Entry],
    from: usize,
    to: usize,
) -> Result<Vec<NumberedEntry>, OutOfMemory>
    requires order { from ≤ to }
    requires end { to ≤ length entries.now }
    ensures numbers { IfOk result (λ rows. map (λ r. r.number) rows.items
        ≡ range_with_len from (to - from)) }
    ensures entries { IfOk result (λ rows. map (λ r. r.entry) rows.items
        ≡ entries_between from to entries.now) }
{
    let mut rows = Vec::new(alloc);
    let shown = &entries[from..to];
    for (place, entry) in shown.iter().enumerate() {
        rows.push(NumberedEntry {
            number: from + place,
            entry: *entry,
        })?;
    }
    Ok(rows)
}

// Runs of addresses with their writers.
ghost use Rattle.std.specs.Prelude.{◌≡◌, ◌==◌, All, find, map, option_copied, IfOk};
ghost use Rattle.sem_writers.specs.Written.{IsWriter};

use sem_key::OutOfMemory;
use sem_mem::{Access, Run};
use std::alloc::Global;

/// A run of addresses, and the write that wrote it.
#[derive(Clone, Copy, Debug)]
pub struct Written {
    pub run: Run,
    pub writer: Option<Access>,
}

/// The runs with their writers, found among these accesses.
pub fn written_rows(
    alloc: Global,
    runs: &[Run],
    list: &[Access],
) -> Result<Vec<Written>, OutOfMemory>
    ensures runs { IfOk result (λ rows. map (λ r. r.run) rows.items ≡ runs.now) }
    ensures writers { IfOk result (λ rows. All (IsWriter list.now) rows.items) }
{
    let mut rows = Vec::new(alloc);
    for run in runs {
        rows.push(Written {
            run: *run,
            writer: writer_of(list, run.entry).copied(),
        })?;
    }
    Ok(rows)
}

// The access by the entry, the first if there are more.
fn writer_of(list: &[Access], entry: u64) -> Option<&Access>
    ensures { option_copied result ≡ find (λ x. x.entry == entry) list.now }
{
    list.iter().find(|access| access.entry == entry)
}

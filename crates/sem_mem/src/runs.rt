// Which runs a range of addresses meets, and the runs of chunks.
ghost use Rattle.std.specs.Prelude.{◌≡◌, ◌+◌, ◌≤◌, length, nat_lt, true, false, All, IfOk};
ghost use Rattle.std.specs.List.{prefix_len};
ghost use Rattle.std.specs.List.Sorted.{IsPartitionedBy, IsPartitionPoint};
ghost use Rattle.sem_access.specs.Runs.{IsValidRun, AreRuns};
ghost use Rattle.sem_mem.specs.Chunks.{together};
ghost use Rattle.sem_mem.specs.Meeting.{IsMetPart};

use crate::steps::step_below;
use sem_access::Run;
use sem_key::OutOfMemory;
use std::alloc::Global;

/// The runs that meet the addresses from `base` up to `end`: the place of the first, and the place
/// after the last. There may be one more before them.
pub fn met_by(runs: &[Run], base: u64, end: u64) -> (usize, usize)
    requires { AreRuns runs.now }
    ensures { IsMetPart runs.now base end result.0 result.1 }
{
    let from = count_ended(runs, base);
    (from, from + count_before(&runs[from..], end))
}

/// How many of the first runs end before the address, by halving.
pub fn count_ended(runs: &[Run], address: u64) -> usize
    requires { All IsValidRun runs.now }
    ensures within { result ≤ length runs.now }
    ensures parted { IsPartitionedBy (λ r. nat_lt (r.base + r.len) address) runs.now
        → IsPartitionPoint (λ r. nat_lt (r.base + r.len) address ≡ true)
        (λ r. nat_lt (r.base + r.len) address ≡ false) runs.now result }
{
    let mut size = runs.len();
    if size == 0 {
        return 0;
    }
    let mut first = 0;
    while size > 1 {
        let half = size / 2;
        first += step_below(half, end_of(&runs[first + half]), address);
        size -= half;
    }
    first + step_below(1, end_of(&runs[first]), address)
}

// The address behind the run.
fn end_of(run: &Run) -> u64
    requires { IsValidRun run.now }
    ensures { result ≡ run.now.base + run.now.len }
{
    run.base + run.len
}

// How many of the first runs begin before the address. Mostly there are few, so a walk finds the
// end sooner than a second search.
fn count_before(runs: &[Run], address: u64) -> usize
    ensures within { result ≤ length runs.now }
    ensures front { result ≡ prefix_len (λ r. nat_lt r.base address) runs.now }
{
    runs.iter().take_while(|run| run.base < address).count()
}

/// The runs of all chunks.
pub fn runs_of(alloc: Global, chunks: &[Vec<Run>]) -> Result<Vec<Run>, OutOfMemory>
    ensures { IfOk result (λ v. v.items ≡ together chunks.now) }
{
    let mut runs = Vec::new(alloc);
    for chunk in chunks {
        runs.extend_from_slice(chunk)?;
    }
    Ok(runs)
}

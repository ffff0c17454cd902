// Which chunks of runs a range of addresses meets.
ghost use Rattle.std.specs.Prelude.{◌≡◌, ◌≤◌, List, length, nat_lt, true, false, All};
ghost use Rattle.std.specs.List.{prefix_len};
ghost use Rattle.std.specs.List.Sorted.{IsPartitionedBy, IsPartitionPoint};
ghost use Rattle.std.specs.Global.{Vec as VecData};
ghost use Rattle.sem_key.specs.declared.limits.TheConstants.{ADDRESSES};
ghost use Rattle.sem_access.specs.declared.run.Run.{Run as RunData};
ghost use Rattle.sem_mem.specs.Chunks.{AreChunks, AreMetChunks, first_base, beginnings_of};

use crate::steps::step_below;
use sem_access::Run;

/// The most runs in a chunk.
pub const CHUNK: usize = 24;

/// The chunks, given their beginnings, that meet the addresses from `base` up to `end`: the place
/// of the first, and the place after the last. There may be one more before them. If none does, a
/// chunk beside them.
pub fn chunks_met(beginnings: &[u64], base: u64, end: u64) -> (usize, usize)
    ensures { (cs : List (VecData RunData)) → AreChunks cs → beginnings.now ≡ beginnings_of cs
        → AreMetChunks cs base end result.0 result.1 }
{
    let begun = count_begun(beginnings, base);
    let from = begun.saturating_sub(1);
    let to = begun + count_before(&beginnings[begun..], end);
    (from, to.max(beginnings.len().min(1)))
}

// How many of the first chunks begin before the address, by halving.
fn count_begun(beginnings: &[u64], address: u64) -> usize
    ensures within { result ≤ length beginnings.now }
    ensures parted { All (λ b. b ≤ ADDRESSES) beginnings.now
        → IsPartitionedBy (λ b. nat_lt b address) beginnings.now → IsPartitionPoint
        (λ b. nat_lt b address ≡ true) (λ b. nat_lt b address ≡ false) beginnings.now result }
{
    let mut size = beginnings.len();
    if size == 0 {
        return 0;
    }
    let mut first = 0;
    while size > 1 {
        let half = size / 2;
        first += step_below(half, beginnings[first + half], address);
        size -= half;
    }
    first + step_below(1, beginnings[first], address)
}

// The same by a walk. Mostly there is none, so it finds the end sooner than a second search.
fn count_before(beginnings: &[u64], address: u64) -> usize
    ensures within { result ≤ length beginnings.now }
    ensures front { result ≡ prefix_len (λ b. nat_lt b address) beginnings.now }
{
    beginnings
        .iter()
        .take_while(|beginning| **beginning < address)
        .count()
}

/// Where the runs begin.
pub fn beginning_of(runs: &[Run]) -> u64
    ensures { result ≡ first_base runs.now }
{
    match runs.first() {
        Some(run) => run.base,
        None => 0,
    }
}

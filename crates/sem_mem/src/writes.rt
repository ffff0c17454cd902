// Overwriting chunks of runs.
ghost use Rattle.std.specs.Prelude.{◌≡◌, ◌+◌, ◌*◌, ◌<◌, ◌≤◌, ◌++◌, length, take, drop, All};
ghost use Rattle.std.specs.Prelude.{OnOk, OnErr, IfOk};
ghost use Rattle.sem_key.specs.declared.limits.TheConstants.{ADDRESSES};
ghost use Rattle.sem_mem.specs.declared.chunks.TheConstants.{CHUNK as CHUNK_SPEC};
ghost use Rattle.sem_mem.specs.declared.writes.TheConstants.{CUT as CUT_SPEC};
ghost use Rattle.sem_mem.specs.Writing.{overwritten as overwritten_spec};
ghost use Rattle.sem_mem.specs.Chunks.{together, AreChunks, AreIndexed, HasAnyRun, IsSized};
ghost use Rattle.sem_mem.specs.Chunks.{beginnings_of};

use crate::chunks::{CHUNK, beginning_of, chunks_met};
use crate::parts::{push_lower_parts, push_upper_parts};
use sem_access::Run;
use sem_key::OutOfMemory;
use std::alloc::Global;
use std::mem;

/// How many runs a chunk gets that is cut off another one, so that both have room for more.
const CUT: usize = 16;

/// Lets the entry write the range, which has an address. Only the chunks that the range meets
/// change, and their beginnings. If memory is refused, all are as before. `spare` may hold
/// anything.
pub fn overwrite(
    chunks: &mut Vec<Vec<Run>>,
    beginnings: &mut Vec<u64>,
    spare: &mut Vec<Run>,
    base: u64,
    len: u32,
    entry: u64,
) -> Result<(), OutOfMemory>
    requires range { base + len ≤ ADDRESSES }
    requires indexed { AreIndexed chunks.old.items beginnings.old.items }
    ensures ok { OnOk result (together chunks.new.items
        ≡ overwritten_spec (together chunks.old.items) base len entry) }
    ensures sized { OnOk result (All IsSized chunks.new.items) }
    ensures begin { OnOk result (beginnings.new.items ≡ beginnings_of chunks.new.items) }
    ensures err { OnErr result (chunks.new.items ≡ chunks.old.items) }
    ensures unmoved { OnErr result (beginnings.new.items ≡ beginnings.old.items) }
{
    let (from, to) = chunks_met(beginnings, base, base + u64::from(len));
    spare.clear();
    spare.reserve(CHUNK)?;
    push_overwritten(spare, &chunks[from..to], base, len, entry)?;
    replace(chunks, beginnings, from, to, spare)
}

// Appends the parts of the runs below the range, the range, and the parts after it.
fn push_overwritten(
    out: &mut Vec<Run>,
    chunks: &[Vec<Run>],
    base: u64,
    len: u32,
    entry: u64,
) -> Result<(), OutOfMemory>
    requires range { base + len ≤ ADDRESSES }
    requires chunks { AreChunks chunks.now }
    ensures { OnOk result (out.new.items
        ≡ out.old.items ++ overwritten_spec (together chunks.now) base len entry) }
{
    let written = Run {
        base,
        len: u64::from(len),
        entry,
    };
    push_lower_parts(out, chunks, base)?;
    out.push(written)?;
    push_upper_parts(out, chunks, base + u64::from(len))
}

// Puts the runs in place of the chunks from one place up to another. If memory is refused, all are
// as before. `runs` may hold anything then.
fn replace(
    chunks: &mut Vec<Vec<Run>>,
    beginnings: &mut Vec<u64>,
    from: usize,
    to: usize,
    runs: &mut Vec<Run>,
) -> Result<(), OutOfMemory>
    requires order { from ≤ to }
    requires within { to ≤ length chunks.old.items }
    requires each { All IsSized chunks.old.items }
    requires begin { beginnings.old.items ≡ beginnings_of chunks.old.items }
    requires some { HasAnyRun runs.old }
    ensures ok { OnOk result (together chunks.new.items
        ≡ together (take from chunks.old.items)
        ++ (runs.old.items ++ together (drop to chunks.old.items))) }
    ensures sized { OnOk result (All IsSized chunks.new.items) }
    ensures begin { OnOk result (beginnings.new.items ≡ beginnings_of chunks.new.items) }
    ensures err { OnErr result (chunks.new.items ≡ chunks.old.items) }
    ensures unmoved { OnErr result (beginnings.new.items ≡ beginnings.old.items) }
{
    if to - from == 1 && runs.len() <= CHUNK {
        beginnings[from] = beginning_of(runs);
        mem::swap(&mut chunks[from], runs);
        return Ok(());
    }
    if to - from == 1 && runs.len() <= CUT + CHUNK {
        return split(chunks, beginnings, from, runs);
    }
    if to - from == 2 && runs.len() >= 2 && runs.len() <= 2 * CHUNK {
        return replace_two(chunks, beginnings, from, runs);
    }
    let alloc = *chunks.allocator();
    let parts = in_chunks(alloc, mem::replace(runs, Vec::new(alloc)))?;
    let begun = beginnings_of_chunks(alloc, &parts)?;
    let mut all = Vec::with_capacity(alloc, beginnings.len() + begun.len())?;
    all.extend_from_slice(&beginnings[..from])?;
    all.extend_from_slice(&begun)?;
    all.extend_from_slice(&beginnings[to..])?;
    chunks.splice(from..to, parts)?;
    *beginnings = all;
    Ok(())
}

// The runs, too many for one chunk, take the place of a chunk as two. If memory is refused, all are
// as before. `runs` may hold anything then.
fn split(
    chunks: &mut Vec<Vec<Run>>,
    beginnings: &mut Vec<u64>,
    from: usize,
    runs: &mut Vec<Run>,
) -> Result<(), OutOfMemory>
    requires within { from < length chunks.old.items }
    requires each { All IsSized chunks.old.items }
    requires begin { beginnings.old.items ≡ beginnings_of chunks.old.items }
    requires many { CHUNK_SPEC < length runs.old.items }
    requires few { length runs.old.items ≤ CUT_SPEC + CHUNK_SPEC }
    ensures ok { OnOk result (together chunks.new.items
        ≡ together (take from chunks.old.items)
        ++ (runs.old.items ++ together (drop (from + 1) chunks.old.items))) }
    ensures sized { OnOk result (All IsSized chunks.new.items) }
    ensures begin { OnOk result (beginnings.new.items ≡ beginnings_of chunks.new.items) }
    ensures err { OnErr result (chunks.new.items ≡ chunks.old.items) }
    ensures unmoved { OnErr result (beginnings.new.items ≡ beginnings.old.items) }
{
    chunks.reserve(1)?;
    beginnings.reserve(1)?;
    let rest = runs.split_off(CUT)?;
    beginnings.insert(from + 1, beginning_of(&rest))?;
    beginnings[from] = beginning_of(runs);
    chunks.insert(from + 1, rest)?;
    mem::swap(&mut chunks[from], runs);
    Ok(())
}

// The runs take the place of the two chunks from that place on, and are two chunks again: no other
// chunk moves. After lack of memory all are as before. In `runs` anything may be then.
fn replace_two(
    chunks: &mut Vec<Vec<Run>>,
    beginnings: &mut Vec<u64>,
    from: usize,
    runs: &mut Vec<Run>,
) -> Result<(), OutOfMemory>
    requires within { from + 2 ≤ length chunks.old.items }
    requires each { All IsSized chunks.old.items }
    requires begin { beginnings.old.items ≡ beginnings_of chunks.old.items }
    requires some { 2 ≤ length runs.old.items }
    requires few { length runs.old.items ≤ 2 * CHUNK_SPEC }
    ensures ok { OnOk result (together chunks.new.items
        ≡ together (take from chunks.old.items)
        ++ (runs.old.items ++ together (drop (from + 2) chunks.old.items))) }
    ensures sized { OnOk result (All IsSized chunks.new.items) }
    ensures begin { OnOk result (beginnings.new.items ≡ beginnings_of chunks.new.items) }
    ensures err { OnErr result (chunks.new.items ≡ chunks.old.items) }
    ensures unmoved { OnErr result (beginnings.new.items ≡ beginnings.old.items) }
{
    let mut rest = runs.split_off(runs.len() / 2)?;
    beginnings[from] = beginning_of(runs);
    beginnings[from + 1] = beginning_of(&rest);
    mem::swap(&mut chunks[from], runs);
    mem::swap(&mut chunks[from + 1], &mut rest);
    Ok(())
}

// Where each of the chunks begins.
fn beginnings_of_chunks(alloc: Global, chunks: &[Vec<Run>]) -> Result<Vec<u64>, OutOfMemory>
    ensures { IfOk result (λ v. v.items ≡ beginnings_of chunks.now) }
{
    chunks
        .iter()
        .map(|chunk| beginning_of(chunk))
        .collect(alloc)
}

fn in_chunks(alloc: Global, mut runs: Vec<Run>) -> Result<Vec<Vec<Run>>, OutOfMemory>
    requires { HasAnyRun runs }
    ensures together { IfOk result (λ v. together v.items ≡ runs.items) }
    ensures sized { IfOk result (λ v. All IsSized v.items) }
{
    let mut chunks = Vec::new(alloc);
    while runs.len() > CHUNK {
        let rest = runs.split_off(CUT)?;
        chunks.push(runs)?;
        runs = rest;
    }
    chunks.push(runs)?;
    Ok(chunks)
}

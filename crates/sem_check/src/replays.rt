// The longest schedule that a journal begins with, made again.
ghost use Rattle.std.specs.Prelude.{◌≡◌, take, IfOk};
ghost use Rattle.sem_machine.specs.Schedules.{IsSchedule};
ghost use Rattle.sem_kernel.specs.Standing.{StandsAt};
ghost use Rattle.sem_check.specs.Replays.{IsLongestSchedule, IsLongestPrefix};

use crate::follows::follow;
use crate::watch::{Noting, Unwatched};
use sem_fabric::Fabric;
use sem_kernel::{Kernel, World, advance, boot};
use sem_key::OutOfMemory;
use sem_msg::{Entry, Journal, Setup};
use std::alloc::Global;

/// The kernels of the setup and a new fabric, at the longest prefix of the journal that is a
/// schedule: a run can go on from them. The fabric's journal is that prefix.
pub fn replay(
    alloc: Global,
    setup: &Setup,
    journal: &Journal,
) -> Result<(Vec<Kernel>, Fabric), OutOfMemory>
    ensures stand { IfOk result (λ r. StandsAt setup.now r.0.items r.1) }
    ensures longest { IfOk result (λ r. IsLongestPrefix setup.now journal.now.entries r.1.journal) }
{
    let entries = journal.as_slice();
    let count = schedule_length(alloc, setup, entries)?;
    repeat(alloc, setup, &entries[..count])
}

// How many of the entries, from the first on, are a schedule of the setup.
fn schedule_length(alloc: Global, setup: &Setup, entries: &[Entry]) -> Result<usize, OutOfMemory>
    ensures { IfOk result (IsLongestSchedule setup.now entries.now) }
{
    let mut world = World::boot(alloc, setup)?;
    match follow(setup, &mut world, entries, &mut Noting(Unwatched))? {
        None => Ok(entries.len()),
        Some(difference) => Ok(difference.entry),
    }
}

// The kernels of the setup and a new fabric, at the entries, which are a schedule of the setup.
fn repeat(
    alloc: Global,
    setup: &Setup,
    entries: &[Entry],
) -> Result<(Vec<Kernel>, Fabric), OutOfMemory>
    requires { IsSchedule setup.now entries.now }
    ensures stand { IfOk result (λ r. StandsAt setup.now r.0.items r.1) }
    ensures journal { IfOk result (λ r. r.1.journal ≡ entries.now) }
{
    let (mut kernels, mut fabric) = boot(alloc, setup, Journal::new(alloc))?;
    for entry in entries {
        advance(setup, &mut kernels, &mut fabric, entry.event)?;
    }
    Ok((kernels, fabric))
}

/// The longest schedule that the first `count` entries of a journal begin with.
pub fn first_schedule(
    alloc: Global,
    setup: &Setup,
    journal: &Journal,
    count: usize,
) -> Result<Journal, OutOfMemory>
    ensures schedule { IfOk result (λ first. IsSchedule setup.now first.entries) }
    ensures longest { IfOk result
        (λ first. IsLongestPrefix setup.now (take count journal.now.entries) first.entries) }
{
    let first = first_entries(alloc, journal, count)?;
    let (_, fabric) = replay(alloc, setup, &first)?;
    Ok(fabric.into_journal())
}

// The journal of the first entries of a journal, at most that many.
fn first_entries(alloc: Global, journal: &Journal, count: usize) -> Result<Journal, OutOfMemory>
    ensures { IfOk result (λ first. first.entries ≡ take count journal.now.entries) }
{
    let mut first = Journal::new(alloc);
    let entries = journal.as_slice();
    for entry in &entries[..count.min(entries.len())] {
        first.room(1)?;
        first.push(*entry);
    }
    Ok(first)
}

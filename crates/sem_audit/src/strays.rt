// Keys that are held and should not be, and keys that should be held and are not.
ghost use Rattle.std.specs.Prelude.{◌≡◌, length, map, IfOk};
ghost use Rattle.sem_msg.specs.Journal.{replies};
ghost use Rattle.sem_machine.specs.Schedules.{IsSchedule};
ghost use Rattle.sem_audit.specs.Straying.{held_keys as held_keys_spec, stray_count, stray_after};

use crate::forests::forest_keys;
use crate::holds::held_list;
use crate::replays::replayed;
use crate::words::missing;
use sem_kernel::Kernel;
use sem_key::{Key, OutOfMemory};
use sem_msg::{Journal, Setup};
use std::alloc::Global;

/// How many replies the journal has.
pub fn answered(journal: &Journal) -> u64
    ensures { result ≡ length (replies journal.now.entries) }
{
    let replied = journal
        .as_slice()
        .iter()
        .filter(|entry| entry.reply.is_some());
    replied.count() as u64
}

/// How many keys are held after the journal that are not in its forest, and how many of its forest
/// are not held. It goes through the events once more.
pub fn stray(alloc: Global, setup: &Setup, journal: &Journal) -> Result<u64, OutOfMemory>
    requires { IsSchedule setup.now journal.now.entries }
    ensures { IfOk result (λ count. count ≡ stray_after setup.now journal.now.entries) }
{
    let world = replayed(alloc, setup, journal)?;
    stray_of(alloc, setup, journal, world.kernels())
}

/// The same with these kernels in place of those after the journal.
pub fn stray_of(
    alloc: Global,
    setup: &Setup,
    journal: &Journal,
    kernels: &[Kernel],
) -> Result<u64, OutOfMemory>
    requires { IsSchedule setup.now journal.now.entries }
    ensures { IfOk result (λ count.
        count ≡ stray_count setup.now journal.now.entries (map (λ k. k.side) kernels.now)) }
{
    let forest = forest_keys(alloc, setup, journal)?;
    let held = held_keys(alloc, kernels)?;
    let over = missing(alloc, &held, &forest)?;
    let under = missing(alloc, &forest, &held)?;
    Ok((over + under) as u64)
}

// The keys that the kernels hold.
fn held_keys(alloc: Global, kernels: &[Kernel]) -> Result<Vec<Key>, OutOfMemory>
    ensures { IfOk result (λ keys. keys.items ≡ held_keys_spec (map (λ k. k.side) kernels.now)) }
{
    let held = held_list(alloc, kernels)?;
    let mut keys = Vec::new(alloc);
    for one in held.as_slice() {
        keys.push(one.key)?;
    }
    Ok(keys)
}

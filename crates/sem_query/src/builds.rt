// The lives of all keys made by a schedule.
ghost use Rattle.std.specs.Prelude.{◌≡◌, ◌+◌, ◌<◌, ◌^◌, ◌++◌, true, [], map, flat_map, All, IfOk};
ghost use Rattle.std.specs.Prelude.{OnOk};
ghost use Rattle.sem_key.specs.KeyName.{IsValidKey};
ghost use Rattle.sem_key.specs.KeyList.{key_set};
ghost use Rattle.sem_msg.specs.Setup.{IsSetup};
ghost use Rattle.sem_machine.specs.Machine.{is_enabled, start};
ghost use Rattle.sem_machine.specs.Journals.{made};
ghost use Rattle.sem_machine.specs.Schedules.{IsSchedule};
ghost use Rattle.sem_query.specs.Lives.{lives};
ghost use Rattle.sem_kernel.specs.Worlds.{stepped_value};
ghost use Rattle.sem_query.specs.Building.{life_so_far, all_noted, grant_noted};
ghost use Rattle.sem_query.specs.Building.{IsNextEntry, IsFollowed};
ghost use Rattle.sem_query.specs.MarkedKeys.{marking, AreAllMarked};

use crate::index::Index;
use crate::life::Life;
use crate::marked::{push_marked, push_swept, token_of};
use crate::moves::moved_keys;
use crate::sights::{held_selector, see, see_granted};
use sem_grants::made_keys;
use sem_kernel::World;
use sem_key::{Key, OutOfMemory, pack};
use sem_msg::{Entry, Journal, Setup};
use std::alloc::Global;

impl Index {
    /// The lives of all keys that the schedule made, by one pass through its events.
    pub fn build(alloc: Global, setup: &Setup, journal: &Journal) -> Result<Index, OutOfMemory>
        requires { IsSchedule setup.now journal.now.entries }
        ensures { IfOk result (λ index. index ≡ lives setup.now journal.now.entries) }
    {
        setup.keeps_its_rules();
        let mut world = World::boot(alloc, setup)?;
        let mut index = begin(alloc, setup, journal, &world)?;
        follow_all(alloc, &mut index, setup, &mut world, journal.as_slice())?;
        Ok(index)
    }
}

// Takes the world through the entries, a schedule, and notes each of them.
fn follow_all(
    alloc: Global,
    index: &mut Index,
    setup: &Setup,
    world: &mut World,
    entries: &[Entry],
) -> Result<(), OutOfMemory>
    requires setup { IsSetup setup.now }
    requires schedule { IsSchedule setup.now entries.now }
    requires start { world.old ≡ record { setup = setup.now; world = start setup.now } }
    requires index { index.old
        ≡ map (life_so_far setup.now []) (key_set (made setup.now entries.now)) }
    ensures { OnOk result (index.new ≡ lives setup.now entries.now) }
{
    let mut marked = Vec::new(alloc);
    for place in 0..entries.len() {
        let n = place as u64;
        follow(alloc, index, &mut marked, setup, world, n, &entries[place])?;
    }
    Ok(())
}

// The lives at the start of all keys that the journal makes.
fn begin(
    alloc: Global,
    setup: &Setup,
    journal: &Journal,
    world: &World,
) -> Result<Index, OutOfMemory>
    requires setup { IsSetup setup.now }
    requires schedule { IsSchedule setup.now journal.now.entries }
    requires start { world.now.world ≡ start setup.now }
    ensures { IfOk result (λ index. index
        ≡ map (life_so_far setup.now []) (key_set (made setup.now journal.now.entries))) }
{
    let mut keys = made_keys(alloc, setup, journal)?;
    sort_keys(&mut keys);
    let mut lives = Vec::with_capacity(alloc, keys.len())?;
    for key in &keys {
        lives.push(first_life(alloc, setup, world, *key))?;
    }
    Ok(Index::new(lives))
}

// The life of the key at the start, also if it is yet to be granted.
fn first_life(alloc: Global, setup: &Setup, world: &World, key: Key) -> Life
    requires setup { IsSetup setup.now }
    requires start { world.now.world ≡ start setup.now }
    ensures { result ≡ life_so_far setup.now [] key }
{
    Life::new(alloc, key, held_selector(setup, world, key))
}

// Sorts the keys, and keeps each once.
fn sort_keys(keys: &mut Vec<Key>)
    requires { All IsValidKey keys.old.items }
    ensures { keys.new.items ≡ key_set keys.old.items }
{
    keys.sort_unstable_by_key(|key| pack(*key));
    keys.dedup_by(|one, other| pack(*one) == pack(*other));
}

// Lets the event of the entry happen, and notes the entry, number `n`. `marked` holds the held
// marked keys, with their jobs.
fn follow(
    alloc: Global,
    index: &mut Index,
    marked: &mut Vec<(Key, u32)>,
    setup: &Setup,
    world: &mut World,
    n: u64,
    entry: &Entry,
) -> Result<(), OutOfMemory>
    requires setup { IsSetup setup.now }
    requires world { world.old.setup ≡ setup.now }
    requires next { IsNextEntry setup.now world.old.world entry.now }
    requires enabled { is_enabled world.old.setup world.old.world entry.now.event ≡ true }
    requires few { n + 1 < 2 ^ 64 }
    requires marked { AreAllMarked setup.now world.old.world marked.old.items }
    ensures world { OnOk result (world.new ≡ stepped_value world.old entry.now.event) }
    ensures marked { OnOk result (AreAllMarked setup.now world.new.world marked.new.items) }
    ensures index { OnOk result
        (IsFollowed setup.now world.old.world n entry.now index.old index.new) }
{
    let mut moved = moved_keys(alloc, setup, world, entry)?;
    let token = token_of(marked, setup, world, entry);
    world.advance(entry.event)?;
    push_swept(alloc, marked, setup, world, entry, token, &mut moved)?;
    note_moved(index, marked, setup, world, n, &moved)?;
    note_grant(alloc, index, setup, world, n, entry)
}

// Notes where the keys are after entry `n`, and appends those that are then held marked.
fn note_moved(
    index: &mut Index,
    marked: &mut Vec<(Key, u32)>,
    setup: &Setup,
    world: &World,
    n: u64,
    moved: &[Key],
) -> Result<(), OutOfMemory>
    requires { n + 1 < 2 ^ 64 }
    ensures index { OnOk result (index.new
        ≡ all_noted setup.now world.now.world n moved.now index.old) }
    ensures marked { OnOk result (marked.new.items ≡ marked.old.items
        ++ flat_map (marking setup.now world.now.world) moved.now) }
{
    for key in moved {
        index.note(*key, n, see(setup, world, *key))?;
        push_marked(marked, setup, world, *key)?;
    }
    Ok(())
}

// Notes what the entry grants.
fn note_grant(
    alloc: Global,
    index: &mut Index,
    setup: &Setup,
    world: &World,
    n: u64,
    entry: &Entry,
) -> Result<(), OutOfMemory>
    requires { n + 1 < 2 ^ 64 }
    ensures { OnOk result (index.new
        ≡ grant_noted setup.now world.now.world n entry.now.grant index.old) }
{
    let Some(grant) = entry.grant else {
        return Ok(());
    };
    let child = grant.1;
    index.grant(alloc, child, n);
    index.note(child, n, see_granted(setup, world, child))
}

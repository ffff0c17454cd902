// A key followed along a journal.
ghost use Rattle.std.specs.Prelude.{◌≡◌, ◌++◌, ◌∷◌, [], List, length};
ghost use Rattle.sem_msg.specs.declared.entry.Entry.{Entry as EntryData};
ghost use Rattle.sem_msg.specs.Setup.{Setup as SetupData};
ghost use Rattle.sem_machine.specs.Machine.{side, start};
ghost use Rattle.sem_machine.specs.Schedules.{IsSchedule, world_after};
ghost use Rattle.sem_query.specs.Whereabouts.{holder as holder_spec};
ghost use Rattle.sem_query.specs.Changes.{grants_key};
ghost use Rattle.sem_query.specs.Sightings.{IsSeen, IsReadied, is_that_key as is_key_spec};
ghost use Rattle.sem_query.specs.Sightings.{is_that_vpe as is_vpe_spec, is_root as is_root_spec};
ghost use Rattle.sem_query.specs.Sightings.{moves_at_home as moves_at_home_spec};
ghost use Rattle.sem_query.specs.Sightings.{may_move as may_move_spec};

use crate::entries::{brought_key, is_revoking, requested, resumed};
use crate::holder::Holder;
use crate::sighting::Sighting;
use crate::sights::{held_selector, is_held_at, is_ready_at, see, see_granted};
use sem_grants::ended_by;
use sem_kernel::World;
use sem_key::{Key, same_key};
use sem_msg::{Entry, Setup};

impl Sighting {
    /// Follows the key for that many entries.
    pub fn new(key: Key, count: u64) -> Self
        ensures key { result.key ≡ key }
        ensures count { result.count ≡ count }
    {
        Sighting {
            key,
            count,
            there: Holder::No,
            is_moving: false,
        }
    }

    /// Sees the world at the start.
    pub fn begin(&mut self, setup: &Setup, world: &World)
        requires { world.now.world ≡ start setup.now }
        ensures seen { IsSeen setup.now [] self.new }
        ensures key { self.new.key ≡ self.old.key }
        ensures count { self.new.count ≡ self.old.count }
    {
        setup.keeps_its_rules();
        self.there = match held_selector(setup, world, self.key) {
            Some(sel) => Holder::Unmarked(sel),
            None => Holder::No,
        };
    }

    /// Sees the world after the past entries, before the next one.
    pub fn before(&mut self, setup: &Setup, world: &World, past: &[Entry], next: &Entry)
        requires world { world.now.world ≡ world_after setup.now past.now }
        requires seen { IsSeen setup.now past.now self.old }
        ensures readied { IsReadied setup.now past.now next.now self.new }
        ensures key { self.new.key ≡ self.old.key }
        ensures count { self.new.count ≡ self.old.count }
    {
        self.is_moving = may_move(setup, world, next, self.key);
    }

    /// Sees the world after that entry.
    pub fn after(&mut self, setup: &Setup, world: &World, past: &[Entry], next: &Entry)
        requires schedule { IsSchedule setup.now (past.now ++ next.now ∷ []) }
        requires world { world.now.world ≡ world_after setup.now (past.now ++ next.now ∷ []) }
        requires readied { IsReadied setup.now past.now next.now self.old }
        ensures seen { IsSeen setup.now (past.now ++ next.now ∷ []) self.new }
        ensures key { self.new.key ≡ self.old.key }
        ensures count { self.new.count ≡ self.old.count }
    {
        setup.keeps_its_rules();
        if past.len() as u64 >= self.count {
            return;
        }
        if is_granted(next, self.key) {
            self.there = see_granted(setup, world, self.key);
        } else if self.is_moving {
            self.there = see(setup, world, self.key);
        }
    }

    /// Where the key is after `count` entries of a journal with that many entries, followed to its
    /// end; nowhere if there are fewer.
    pub fn holder(&self, entries: u64) -> Holder
        ensures { (T : SetupData) (J : List EntryData) → length J ≡ entries → IsSeen T J self.now
            → result ≡ holder_spec T J self.now.key self.now.count }
    {
        if entries < self.count {
            Holder::No
        } else {
            self.there
        }
    }
}

fn is_granted(entry: &Entry, key: Key) -> bool
    ensures { result ≡ grants_key key entry.now }
{
    match entry.grant {
        Some((_, child)) => same_key(&child, &key),
        None => false,
    }
}

// Whether the entry may move the key, in the world before it and other than by granting it.
fn may_move(setup: &Setup, world: &World, entry: &Entry, key: Key) -> bool
    ensures { result ≡ may_move_spec setup.now world.now.world entry.now key }
{
    is_key(key, brought_key(entry))
        || (setup.owner_of(key) == entry.event.kernel && moves_at_home(world, entry, key))
}

// The same for a key of the entry's kernel.
fn moves_at_home(world: &World, entry: &Entry, key: Key) -> bool
    ensures { result
        ≡ moves_at_home_spec key (side world.now.world entry.now.event.kernel) entry.now }
{
    let kernel = entry.event.kernel;
    (is_vpe(key.vpe, resumed(entry.event.act)) && is_ready_at(world, kernel, key))
        || (is_revoking(entry)
            && ((is_root(entry, key) && is_ready_at(world, kernel, key))
                || is_held_at(world, kernel, key)))
}

// Whether the entry begins to revoke at the key.
fn is_root(entry: &Entry, key: Key) -> bool
    ensures { result ≡ is_root_spec key entry.now }
{
    is_key(key, entry.cut) || (is_key(key, requested(entry)) || is_vpe(key.vpe, ended_by(entry)))
}

// Whether the option is that key.
fn is_key(key: Key, other: Option<Key>) -> bool
    ensures { result ≡ is_key_spec key other }
{
    match other {
        Some(other) => same_key(&other, &key),
        None => false,
    }
}

// Whether the option is that VPE.
fn is_vpe(vpe: u16, other: Option<u16>) -> bool
    ensures { result ≡ is_vpe_spec vpe other }
{
    match other {
        Some(other) => other == vpe,
        None => false,
    }
}

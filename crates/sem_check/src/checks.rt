ghost use Rattle.std.specs.Prelude.{◌≡◌, ◌≤◌, ◌+◌, ◌*◌, ℕ, length, Option, None, OnOk, IfOk};
ghost use Rattle.std.specs.Prelude.{IsErrOf};
ghost use Rattle.sem_msg.specs.Setup.{call_count, kill_count};
ghost use Rattle.sem_msg.specs.declared.entry.Entry.{Entry as EntryData};
ghost use Rattle.sem_machine.specs.Living.{IsComplete};
ghost use Rattle.sem_check.specs.Replays.{IsWorldAfter, next_made, world_value};
ghost use Rattle.sem_check.specs.Verdicts.{TellsDifference, TellsNext};

use crate::entries::make_entry;
use crate::faults::CheckError;
use crate::follows::{Difference, follow};
use crate::watch::{Noting, Unwatched, Watch};
use sem_kernel::World;
use sem_key::OutOfMemory;
use sem_msg::{Entry, Journal, Setup};
use std::alloc::Global;

/// Checks whether the journal is a complete schedule of the setup. If it is, returns the world
/// after it, otherwise the first thing wrong with it. A schedule is complete if no event is enabled
/// after it.
pub fn check(alloc: Global, setup: &Setup, journal: &Journal) -> Result<World, CheckError>
    ensures complete { IfOk result (λ world. IsComplete setup.now journal.now.entries) }
    ensures world { IfOk result (λ world. world ≡ world_value setup.now journal.now.entries) }
    ensures differs { TellsDifference setup.now journal.now.entries result }
    ensures incomplete { TellsNext setup.now journal.now.entries result }
    ensures few { OnOk result
        (length journal.now.entries ≤ 21 * call_count setup.now + kill_count setup.now) }
{
    check_watched(alloc, setup, journal, &mut Noting(Unwatched))
}

/// As `check`, while `watch` sees every world on the way.
pub fn check_watched<W: Watch>(
    alloc: Global,
    setup: &Setup,
    journal: &Journal,
    watch: &mut W,
) -> Result<World, CheckError>
    requires { W.is_new watch.old }
    ensures complete { IfOk result (λ world. IsComplete setup.now journal.now.entries) }
    ensures world { IfOk result (λ world. world ≡ world_value setup.now journal.now.entries) }
    ensures gathered { OnOk result (W.gathers setup.now journal.now.entries watch.new) }
    ensures same { W.subject watch.new ≡ W.subject watch.old }
    ensures differs { TellsDifference setup.now journal.now.entries result }
    ensures incomplete { TellsNext setup.now journal.now.entries result }
    ensures few { OnOk result
        (length journal.now.entries ≤ 21 * call_count setup.now + kill_count setup.now) }
{
    setup.keeps_its_rules();
    let mut world = World::boot(alloc, setup)?;
    let entries = journal.as_slice();
    match follow(setup, &mut world, entries, watch)? {
        None => judge(alloc, setup, world, entries),
        Some(difference) => Err(differs(&difference)),
    }
}

// The error that tells the difference.
fn differs(difference: &Difference) -> CheckError
    ensures { result ≡ CheckError.Differs
        difference.now.entry difference.now.entered difference.now.replayed }
{
    CheckError::Differs {
        entry: difference.entry as u64,
        entered: difference.entered,
        replayed: difference.replayed,
    }
}

// Whether the entries, a schedule with that world after it, are a complete one.
fn judge(
    alloc: Global,
    setup: &Setup,
    mut world: World,
    entries: &[Entry],
) -> Result<World, CheckError>
    requires { IsWorldAfter setup.now entries.now world }
    ensures complete { IfOk result (λ last. IsComplete setup.now entries.now) }
    ensures world { IfOk result (λ last. last ≡ world_value setup.now entries.now) }
    ensures differs { (n : ℕ) (entered : EntryData) (replayed : Option EntryData)
        → ¬ IsErrOf result (CheckError.Differs n entered replayed) }
    ensures incomplete { TellsNext setup.now entries.now result }
{
    setup.keeps_its_rules();
    match next_entry(alloc, &mut world) {
        Ok(None) => Ok(world),
        Ok(Some(next)) => Err(CheckError::Incomplete {
            entry: entries.len() as u64,
            next,
        }),
        Err(OutOfMemory) => Err(CheckError::Memory),
    }
}

// The entry that the first enabled event makes. If no event is enabled, the world is as before.
fn next_entry(alloc: Global, world: &mut World) -> Result<Option<Entry>, OutOfMemory>
    ensures next { IfOk result (λ next. next ≡ next_made world.old.setup world.old.world) }
    ensures same { IfOk result (λ next. next ≡ None → world.new ≡ world.old) }
{
    let mut events = Vec::new(alloc);
    world.enabled_events(alloc, &mut events)?;
    match events.first() {
        Some(event) => make_entry(world, *event),
        None => Ok(None),
    }
}

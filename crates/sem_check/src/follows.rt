// A world that follows a journal.
ghost use Rattle.std.specs.Prelude.{◌≡◌, [], None, IfSome, IfOk};
ghost use Rattle.sem_check.specs.Replays.{IsWorldAfter, DiffersAt, IsStep, IsOther};

use crate::entries::{is_made, make_entry};
use crate::watch::Watch;
use sem_kernel::World;
use sem_key::OutOfMemory;
use sem_msg::{Entry, Setup};

// After so many entries the world drops those that it made, so that there is one long journal.
const DROPPED: usize = 8192;

/// The first entry that its event does not make, and the one that the event makes, or none if the
/// event is not enabled.
#[derive(Clone, Copy, Debug)]
pub struct Difference {
    pub entry: usize,
    pub entered: Entry,
    pub replayed: Option<Entry>,
}

/// Takes the world through the entries, up to the first that differs, while `watch` sees every
/// world on the way. The world must be that of the setup at the start.
pub fn follow<W: Watch>(
    setup: &Setup,
    world: &mut World,
    entries: &[Entry],
    watch: &mut W,
) -> Result<Option<Difference>, OutOfMemory>
    requires start { IsWorldAfter setup.now [] world.old }
    requires new { W.is_new watch.old }
    ensures all { IfOk result
        (λ difference. difference ≡ None → IsWorldAfter setup.now entries.now world.new) }
    ensures gathered { IfOk result
        (λ difference. difference ≡ None → W.gathers setup.now entries.now watch.new) }
    ensures same { W.subject watch.new ≡ W.subject watch.old }
    ensures differs { IfOk result (λ difference. IfSome difference
        (λ d. DiffersAt setup.now entries.now d.entry d.entered d.replayed)) }
{
    watch.begin(setup, world);
    for (place, entered) in entries.iter().enumerate() {
        let past = &entries[..place];
        watch.before(setup, world, past, entered)?;
        if let Some(difference) = take_step(world, place, entered)? {
            return Ok(Some(difference));
        }
        watch.after(setup, world, past, entered)?;
    }
    Ok(None)
}

// Lets the event of the entry at that place happen. Returns the difference, if the event does not
// make this entry.
fn take_step(
    world: &mut World,
    place: usize,
    entered: &Entry,
) -> Result<Option<Difference>, OutOfMemory>
    ensures same { IfOk result (λ difference.
        difference ≡ None → IsStep world.old entered.now world.new) }
    ensures other { IfOk result (λ difference. IfSome difference
        (λ d. (d.entry ≡ place) × (d.entered ≡ entered.now)
        × IsOther world.old entered.now d.replayed)) }
{
    drop_past(world, place);
    let replayed = make_entry(world, entered.event)?;
    if is_made(&replayed, entered) {
        Ok(None)
    } else {
        Ok(Some(Difference {
            entry: place,
            entered: *entered,
            replayed,
        }))
    }
}

// Drops the entries that the world made before, from time to time.
fn drop_past(world: &mut World, place: usize)
    ensures { world.new ≡ world.old }
{
    if place % DROPPED == 0 {
        world.drop_entries();
    }
}

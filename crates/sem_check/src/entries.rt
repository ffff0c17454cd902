// Entries that events make, and entries that were entered.
ghost use Rattle.std.specs.Prelude.{◌≡◌, ◌↔◌, Some, IsSome, IsTrue, IfOk};
ghost use Rattle.sem_kernel.specs.Worlds.{stepped_value};
ghost use Rattle.sem_check.specs.Replays.{entry_made};

use sem_kernel::{StepError, World};
use sem_key::OutOfMemory;
use sem_msg::{Entry, Event, same_entry};

/// Lets the event happen, if it is enabled, and returns the entry that it makes.
pub fn make_entry(world: &mut World, event: Event) -> Result<Option<Entry>, OutOfMemory>
    ensures made { IfOk result (λ made. made ≡ entry_made world.old.setup world.old.world event) }
    ensures after { IfOk result (λ made. IsSome made → world.new ≡ stepped_value world.old event) }
{
    match world.step(event) {
        Ok(entry) => Ok(Some(entry)),
        Err(StepError::NotEnabled) => Ok(None),
        Err(StepError::Memory) => Err(OutOfMemory),
    }
}

/// Whether an entry was made, and equals the entered one.
pub fn is_made(made: &Option<Entry>, entered: &Entry) -> bool
    ensures { IsTrue result ↔ (made.now ≡ Some entered.now) }
{
    match made {
        Some(made) => same_entry(made, entered),
        None => false,
    }
}

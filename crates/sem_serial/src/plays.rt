ghost use Rattle.std.specs.Prelude.{◌≡◌, ℕ, [], length, take, OnOk, IfOk, IsErrOf};
ghost use Rattle.sem_machine.specs.Schedules.{IsSchedule, world_after};
ghost use Rattle.sem_machine.specs.Safety.{IsSafe};
ghost use Rattle.sem_serial.specs.Playing.{events_of, IsNotEnabledAt};

use crate::faults::PlayError;
use sem_kernel::{StepError, World};
use sem_msg::{Event, Journal, Setup};
use std::alloc::Global;

/// Runs the given events of the setup from its start, until one is not enabled, and returns the
/// world after them. The journal must be empty. It gets the entries, even if an event is not
/// enabled; if memory is refused, it stays empty. It is a schedule, and safe.
pub fn play(
    alloc: Global,
    setup: &Setup,
    events: &[Event],
    journal: &mut Journal,
) -> Result<World, PlayError>
    requires { journal.old.entries ≡ [] }
    ensures schedule { IsSchedule setup.now journal.new.entries }
    ensures safe { IsSafe setup.now journal.new.entries }
    ensures events { events_of journal.new.entries ≡ take (length journal.new.entries) events.now }
    ensures all { OnOk result (events_of journal.new.entries ≡ events.now) }
    ensures world { IfOk result (λ world. world
        ≡ record { setup = setup.now; world = world_after setup.now journal.new.entries }) }
    ensures not_enabled { (at : ℕ) → IsErrOf result (PlayError.NotEnabled at) →
        IsNotEnabledAt setup.now events.now journal.new.entries at }
    ensures memory { IsErrOf result PlayError.Memory → journal.new.entries ≡ [] }
{
    setup.keeps_its_rules();
    let mut world = World::boot(alloc, setup)?;
    let mut played = Journal::new(alloc);
    for (at, event) in events.iter().enumerate() {
        played.room(1)?;
        match world.step(*event) {
            Ok(entry) => played.push(entry),
            Err(StepError::NotEnabled) => {
                *journal = played;
                return Err(PlayError::NotEnabled { at });
            }
            Err(StepError::Memory) => return Err(PlayError::Memory),
        }
    }
    *journal = played;
    Ok(world)
}

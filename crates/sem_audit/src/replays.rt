ghost use Rattle.std.specs.Prelude.{◌≡◌, IfOk};
ghost use Rattle.sem_machine.specs.Schedules.{IsSchedule, world_after};
ghost use Rattle.sem_audit.specs.Reported.{IsAuditOf};

use crate::audits::audit_of;
use sem_kernel::World;
use sem_key::OutOfMemory;
use sem_msg::{Audit, Journal, Setup};
use std::alloc::Global;

/// The audit of a journal that the machine can make. It goes through the events once more.
pub fn audit(alloc: Global, setup: &Setup, journal: &Journal) -> Result<Audit, OutOfMemory>
    requires { IsSchedule setup.now journal.now.entries }
    ensures { IfOk result (IsAuditOf setup.now journal.now.entries) }
{
    let world = replayed(alloc, setup, journal)?;
    audit_of(alloc, setup, journal, world.kernels())
}

// The world after the events of the journal.
pub fn replayed(alloc: Global, setup: &Setup, journal: &Journal) -> Result<World, OutOfMemory>
    requires { IsSchedule setup.now journal.now.entries }
    ensures { IfOk result (λ world. world ≡ record {
      setup = setup.now;
      world = world_after setup.now journal.now.entries;
    }) }
{
    let mut world = World::boot(alloc, setup)?;
    for at in 0..journal.len() {
        let Some(entry) = journal.get(at) else {
            unreachable!()
        };
        world.advance(entry.event)?;
    }
    Ok(world)
}

// The accesses of a journal.
ghost use Rattle.std.specs.Prelude.{◌≡◌, ◌++◌, IfOk, OnOk};
ghost use Rattle.std.specs.Option.{option_to_list};
ghost use Rattle.sem_machine.specs.Schedules.{IsSchedule};
ghost use Rattle.sem_access.specs.Accesses.{accesses as accesses_spec};
ghost use Rattle.sem_access.specs.Transfers.{transfer_of as transfer_of_spec, access_by};

use sem_access::{Access, AccessList, transfer_of};
use sem_kernel::World;
use sem_key::OutOfMemory;
use sem_msg::{Entry, Journal, Setup};
use std::alloc::Global;

/// The reads and writes that succeeded, of a journal that the machine can make. It goes through the
/// events once more.
pub fn accesses(alloc: Global, setup: &Setup, journal: &Journal) -> Result<AccessList, OutOfMemory>
    requires { IsSchedule setup.now journal.now.entries }
    ensures { IfOk result (λ list. list ≡ accesses_spec setup.now journal.now.entries) }
{
    setup.keeps_its_rules();
    let mut world = World::boot(alloc, setup)?;
    let mut found = AccessList::new(alloc);
    for (place, entry) in journal.as_slice().iter().enumerate() {
        push_access(&mut found, &world, place as u64, entry)?;
        world.advance(entry.event)?;
    }
    Ok(found)
}

// Appends the access of the entry in the world before it, if it has one.
fn push_access(
    found: &mut AccessList,
    world: &World,
    place: u64,
    entry: &Entry,
) -> Result<(), OutOfMemory>
    ensures { OnOk result (found.new ≡ found.old ++ option_to_list
        (access_by world.now.setup world.now.world place (transfer_of_spec entry.now))) }
{
    if let Some(access) = access_at(world, place, entry) {
        found.push(access)?;
    }
    Ok(())
}

/// What the entry at that place reads or writes in the world before it, if anything.
pub fn access_at(world: &World, place: u64, entry: &Entry) -> Option<Access>
    ensures { result
        ≡ access_by world.now.setup world.now.world place (transfer_of_spec entry.now) }
{
    let transfer = transfer_of(entry)?;
    match world.binding(transfer.vpe, transfer.ep) {
        Some((key, object)) => Some(transfer.access(place, key, &object)),
        None => None,
    }
}

// What memory holds, told entry by entry.
ghost use Rattle.std.specs.Prelude.{◌≡◌, ◌++◌, ◌∷◌, [], OnOk};
ghost use Rattle.sem_machine.specs.Schedules.{IsSchedule};
ghost use Rattle.sem_access.specs.Transfers.{transfer_of as transfer_of_spec, access_by};
ghost use Rattle.sem_mem.specs.Accounts.{IsAccount, IsAccountOf, IsAccountBefore};

use crate::account::Account;
use crate::contents::take_in;
use crate::memory::Memory;
use crate::replays::access_at;
use sem_kernel::World;
use sem_key::OutOfMemory;
use sem_msg::{Entry, Setup};
use std::alloc::Global;

impl Account {
    /// The account of no accesses.
    pub fn new(alloc: Global) -> Self
        ensures { IsAccount [] result }
    {
        Account {
            memory: Memory::new(alloc),
            lines: Vec::new(alloc),
            next: None,
        }
    }

    /// Sees the world before the entry, which comes at that place.
    pub fn before(&mut self, world: &World, place: u64, entry: &Entry)
        ensures { self.new ≡ record self.old {
          next
              = access_by world.now.setup world.now.world place (transfer_of_spec entry.now);
        } }
    {
        self.next = access_at(world, place, entry);
    }

    /// Takes in what the entry after the past ones reads or writes.
    pub fn after(&mut self, setup: &Setup, past: &[Entry], entry: &Entry) -> Result<(), OutOfMemory>
        requires schedule { IsSchedule setup.now (past.now ++ entry.now ∷ []) }
        requires expected { IsAccountBefore setup.now past.now entry.now self.old }
        ensures { OnOk result
            (IsAccountOf setup.now (past.now ++ entry.now ∷ []) self.new) }
    {
        setup.keeps_its_rules();
        match self.next {
            Some(access) => take_in(&mut self.memory, &mut self.lines, &access),
            None => Ok(()),
        }
    }
}

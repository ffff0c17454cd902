ghost use Rattle.std.specs.Prelude.{◌≡◌, ◌≤◌, true, ◌++◌, ◌∷◌, ◌+◌, ◌*◌, [], List, length, map};
ghost use Rattle.std.specs.Prelude.{is_some, OnOk, OnErr, IfOk};
ghost use Rattle.sem_msg.specs.declared.entry.Entry.{Entry as EntryData};
ghost use Rattle.sem_msg.specs.Setup.{call_count, kill_count};
ghost use Rattle.sem_machine.specs.Living.{IsComplete};
ghost use Rattle.sem_machine.specs.Machine.{after, entry_of, is_enabled};
ghost use Rattle.sem_machine.specs.Seeded.{drained};
ghost use Rattle.sem_kernel.specs.Worlds.{world_of};
ghost use Rattle.sem_kernel.specs.Standing.{StandsAt};
ghost use Rattle.sem_serial.specs.Draining.{drained_on};
ghost use Rattle.sem_serial.specs.Listed.{AreListed};

use crate::lists::{event_count, list_all, pick, renew};
use sem_fabric::Fabric;
use sem_kernel::{Kernel, advance};
use sem_key::OutOfMemory;
use sem_msg::{Event, Setup};
use sem_pick::Draws;
use std::alloc::Global;

/// Runs on by the words of the seed until no event is enabled: at each step one word picks one of
/// the enabled events. The kernels and the fabric must be those of the setup, and stand at a
/// schedule, the journal of the fabric. They do so after an error too, within the same run. The run
/// ends, since a schedule has at most 21 entries for each call of the setup and one for each kill.
pub fn drain(
    alloc: Global,
    setup: &Setup,
    kernels: &mut Vec<Kernel>,
    fabric: &mut Fabric,
    seed: u64,
) -> Result<(), OutOfMemory>
    requires { StandsAt setup.now kernels.old.items fabric.old }
    ensures stand { StandsAt setup.now kernels.new.items fabric.new }
    ensures few { length fabric.new.journal ≤ 21 * call_count setup.now + kill_count setup.now }
    ensures prefix { (rest : List EntryData)
        × (fabric.new.journal ++ rest ≡ drained setup.now fabric.old.journal seed) }
    ensures drained { OnOk result (fabric.new.journal ≡ drained setup.now fabric.old.journal seed) }
    ensures complete { OnOk result (IsComplete setup.now fabric.new.journal) }
{
    setup.keeps_its_rules();
    let mut lists = list_all(alloc, setup, kernels.as_slice(), fabric)?;
    let mut draws = Draws::new(seed);
    run_on(setup, kernels, fabric, &mut draws, &mut lists)
}

// Runs on by the words until no event is enabled. The lists hold the enabled events.
fn run_on(
    setup: &Setup,
    kernels: &mut Vec<Kernel>,
    fabric: &mut Fabric,
    draws: &mut Draws,
    lists: &mut Vec<Vec<Event>>,
) -> Result<(), OutOfMemory>
    requires stand { StandsAt setup.now kernels.old.items fabric.old }
    requires listed { AreListed setup.now (world_of kernels.old.items fabric.old)
        (map (λ list. list.items) lists.old.items) }
    ensures stand { StandsAt setup.now kernels.new.items fabric.new }
    ensures prefix { (rest : List EntryData)
        × (fabric.new.journal ++ rest ≡ drained_on setup.now fabric.old.journal draws.old) }
    ensures drained { OnOk result
        (fabric.new.journal ≡ drained_on setup.now fabric.old.journal draws.old) }
    ensures complete { OnOk result (IsComplete setup.now fabric.new.journal) }
{
    setup.keeps_its_rules();
    let mut count = event_count(lists.as_slice());
    while let Some(event) = pick(lists.as_slice(), count, draws) {
        let replied = make_entry(setup, kernels, fabric, event)?;
        count = renew(
            setup,
            kernels.as_slice(),
            fabric,
            event,
            replied,
            count,
            lists,
        )?;
    }
    Ok(())
}

// Lets the enabled event happen, and returns whether it made a reply. If memory is refused, nothing
// has happened.
fn make_entry(
    setup: &Setup,
    kernels: &mut Vec<Kernel>,
    fabric: &mut Fabric,
    event: Event,
) -> Result<bool, OutOfMemory>
    requires stand { StandsAt setup.now kernels.old.items fabric.old }
    requires enabled { is_enabled setup.now (world_of kernels.old.items fabric.old) event ≡ true }
    ensures stand { StandsAt setup.now kernels.new.items fabric.new }
    ensures replied { IfOk result (λ b. b
        ≡ is_some (entry_of setup.now (world_of kernels.old.items fabric.old) event).reply) }
    ensures after { OnOk result (world_of kernels.new.items fabric.new
        ≡ after setup.now (world_of kernels.old.items fabric.old) event) }
    ensures journal { OnOk result (fabric.new.journal ≡ fabric.old.journal
        ++ entry_of setup.now (world_of kernels.old.items fabric.old) event ∷ []) }
    ensures same { OnErr result (fabric.new.journal ≡ fabric.old.journal) }
{
    advance(setup, kernels, fabric, event)
}

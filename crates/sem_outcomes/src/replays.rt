// Plays the way to a history again.
ghost use Rattle.std.specs.Prelude.{◌≡◌, ◌≤◌, ◌∷◌, ◌++◌, true, [], length, IfOk, OnOk};
ghost use Rattle.sem_kernel.specs.Worlds.{world_of};
ghost use Rattle.sem_machine.specs.Machine.{is_enabled, entry_of};
ghost use Rattle.sem_machine.specs.Schedules.{world_after};
ghost use Rattle.sem_kernel.specs.Standing.{StandsAt};
ghost use Rattle.sem_outcomes.specs.Met.{AreEarlier, AreSteps, journal_at};
ghost use Rattle.sem_outcomes.specs.Ways.{ComesFrom};

use crate::steps::Step;
use sem_fabric::Fabric;
use sem_kernel::{Kernel, advance, boot, do_enabled_event};
use sem_key::OutOfMemory;
use sem_msg::{Entry, Event, Journal, Setup};
use std::alloc::Global;

// Kernels and their fabric that stand at the history.
pub fn play(
    alloc: Global,
    setup: &Setup,
    steps: &[Step],
    at: usize,
) -> Result<(Vec<Kernel>, Fabric), OutOfMemory>
    requires steps { AreSteps setup.now steps.now }
    requires at { at ≤ length steps.now }
    ensures stand { IfOk result (λ r. StandsAt setup.now r.0.items r.1) }
    ensures journal { IfOk result (λ r. r.1.journal ≡ journal_at setup.now steps.now at) }
{
    let mut way = way_to(alloc, steps, at)?;
    let (mut kernels, mut fabric) = boot(alloc, setup, Journal::new(alloc))?;
    while let Some(number) = way.pop() {
        take_step(setup, &mut kernels, &mut fabric, steps[number - 1].event)?;
    }
    Ok((kernels, fabric))
}

// Lets the event, an enabled one, happen.
fn take_step(
    setup: &Setup,
    kernels: &mut Vec<Kernel>,
    fabric: &mut Fabric,
    event: Event,
) -> Result<(), OutOfMemory>
    requires stand { StandsAt setup.now kernels.old.items fabric.old }
    requires enabled { is_enabled setup.now (world_of kernels.old.items fabric.old) event ≡ true }
    ensures stand { StandsAt setup.now kernels.new.items fabric.new }
    ensures journal { OnOk result (fabric.new.journal ≡ fabric.old.journal
        ++ entry_of setup.now (world_of kernels.old.items fabric.old) event ∷ []) }
{
    match advance(setup, kernels, fabric, event) {
        Ok(_) => Ok(()),
        Err(error) => Err(error),
    }
}

// The entry that an event, an enabled one, makes after the history.
pub fn entry_after(
    alloc: Global,
    setup: &Setup,
    steps: &[Step],
    at: usize,
    event: Event,
) -> Result<Entry, OutOfMemory>
    requires steps { AreSteps setup.now steps.now }
    requires at { at ≤ length steps.now }
    requires enabled { is_enabled setup.now
        (world_after setup.now (journal_at setup.now steps.now at)) event ≡ true }
    ensures { IfOk result (λ entry. entry
        ≡ entry_of setup.now (world_after setup.now (journal_at setup.now steps.now at)) event) }
{
    let (mut kernels, mut fabric) = play(alloc, setup, steps, at)?;
    do_enabled_event(setup, &mut kernels, &mut fabric, event)
}

// The numbers of the histories on the way to that one, that one first.
fn way_to(alloc: Global, steps: &[Step], at: usize) -> Result<Vec<usize>, OutOfMemory>
    requires earlier { AreEarlier steps.now }
    requires at { at ≤ length steps.now }
    ensures { IfOk result (λ way. ComesFrom steps.now at way.items 0) }
{
    let mut way = Vec::new(alloc);
    let mut number = at;
    while number > 0 {
        way.push(number)?;
        number = steps[number - 1].from as usize;
    }
    Ok(way)
}

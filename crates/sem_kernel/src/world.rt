ghost use Rattle.std.specs.Prelude.{◌≡◌, ◌<◌, ◌↔◌, false, true, map, IfOk, OnOk, OnErr, IsErrOf};
ghost use Rattle.std.specs.List.{range_with_len};
ghost use Rattle.std.specs.Option.{option_map};
ghost use Rattle.sem_msg.specs.Lookups.{kernel_of};
ghost use Rattle.sem_machine.specs.Sides.{is_alive as is_alive_spec, endpoint};
ghost use Rattle.sem_machine.specs.Machine.{side, start, enabled, is_enabled as is_enabled_spec};
ghost use Rattle.sem_machine.specs.Machine.{after as after_spec, entry_of};
ghost use Rattle.sem_kernel.specs.Worlds.{booted, stepped_value};

use crate::events::{StepError, advance, do_event, is_enabled};
use crate::kernel::Kernel;
use crate::listing::enabled_events;
use crate::shared::SharedSetup;
use sem_fabric::Fabric;
use sem_key::{Key, Object, OutOfMemory};
use sem_msg::{ENDPOINTS, Entry, Event, Journal, Setup};
use std::alloc::Global;
use std::marker::Model;

/// All kernels of a setup and the fabric between them. Only `boot`, `enabled_events`, `step` and
/// `advance` take memory.
#[derive(Debug, Drop)]
pub struct World {
    setup: Setup,
    kernels: Vec<Kernel>,
    fabric: Fabric,
}

impl Model for World {
    ghost use Rattle.sem_kernel.specs.Worlds.{world_of, AreKernelsOf, WorldValue};

    ghost Value = { WorldValue };

    ghost view = { λ w. record { setup = w.setup; world = world_of w.kernels.items w.fabric } };

    ghost invariant = { λ w. AreKernelsOf w.setup w.kernels.items w.fabric };
}

impl World {
    /// The world of the setup at the start. It keeps a copy of the setup.
    pub fn boot(alloc: Global, setup: &Setup) -> Result<Self, OutOfMemory>
        ensures { IfOk result (λ w. w ≡ record { setup = setup.now; world = start setup.now }) }
    {
        setup.keeps_its_rules();
        let kernels = boot_kernels(alloc, setup)?;
        let fabric = Fabric::new(alloc, setup, Journal::new(alloc))?;
        Ok(World {
            setup: setup.copy(alloc)?,
            kernels,
            fabric,
        })
    }

    /// The kernels, by number.
    pub fn kernels(&self) -> &[Kernel]
        ensures { map (λ k. k.side) result.now ≡ self.now.world.sides }
    {
        self.kernels.as_slice()
    }

    /// Whether the event is enabled.
    pub fn is_enabled(&self, event: Event) -> bool
        ensures { result ≡ is_enabled_spec self.now.setup self.now.world event }
    {
        is_enabled(&self.setup, self.kernels.as_slice(), &self.fabric, event)
    }

    /// Whether the VPE is alive; false if it is not declared.
    pub fn is_alive(&self, vpe: u16) -> bool
        ensures { result ≡ is_alive_spec (side self.now.world (kernel_of self.now.setup vpe)) vpe }
    {
        match self.kernels.get(self.setup.kernel_of(vpe) as usize) {
            Some(kernel) => kernel.is_alive(vpe),
            None => false,
        }
    }

    /// The key that an endpoint of the VPE is bound to, and the object that its capability had
    /// then; none if the endpoint is not bound, or the VPE is not declared.
    ///
    /// The endpoint must be at most 15.
    pub fn binding(&self, vpe: u16, ep: u8) -> Option<(Key, Object)>
        requires { ep < ENDPOINTS }
        ensures { result ≡ option_map (λ e. (e.key, e.object))
            (endpoint (side self.now.world (kernel_of self.now.setup vpe)) vpe ep) }
    {
        match self.kernels.get(self.setup.kernel_of(vpe) as usize) {
            Some(kernel) => kernel.binding(vpe, ep),
            None => None,
        }
    }

    /// Replaces the list by the enabled events, in order. If memory is refused, the list stays as
    /// it was.
    pub fn enabled_events(&self, alloc: Global, out: &mut Vec<Event>) -> Result<(), OutOfMemory>
        ensures ok { OnOk result (out.new.items ≡ enabled self.now.setup self.now.world) }
        ensures err { OnErr result (out.new.items ≡ out.old.items) }
    {
        enabled_events(
            alloc,
            &self.setup,
            self.kernels.as_slice(),
            &self.fabric,
            out,
        )
    }

    /// Lets the event happen, and returns the entry that it makes. An event that is not enabled is
    /// refused. After a refusal, or if memory is refused, the world is as before.
    pub fn step(&mut self, event: Event) -> Result<Entry, StepError>
        ensures not_enabled { IsErrOf result StepError.NotEnabled
            ↔ (is_enabled_spec self.old.setup self.old.world event ≡ false) }
        ensures entry { IfOk result (λ entry. entry
            ≡ entry_of self.old.setup self.old.world event) }
        ensures after { IfOk result (λ entry. self.new
            ≡ record {
              setup = self.old.setup;
              world = after_spec self.old.setup self.old.world event;
            }) }
        ensures unchanged { OnErr result (self.new ≡ self.old) }
    {
        do_event(&self.setup, &mut self.kernels, &mut self.fabric, event)
    }

    /// Lets the event happen, an enabled one. If memory is refused, the world is as before.
    pub fn advance(&mut self, event: Event) -> Result<(), OutOfMemory>
        requires { is_enabled_spec self.old.setup self.old.world event ≡ true }
        ensures ok { OnOk result (self.new ≡ stepped_value self.old event) }
        ensures err { OnErr result (self.new ≡ self.old) }
    {
        advance(&self.setup, &mut self.kernels, &mut self.fabric, event)?;
        Ok(())
    }

    /// Drops the entries of the steps so far but those that reply to a call, which are counted. The
    /// world stays the same.
    pub fn drop_entries(&mut self)
        ensures { self.new ≡ self.old }
    {
        self.fabric.keep_replies();
    }
}

/// The kernels of the setup at the start, by number.
pub fn boot_kernels(alloc: Global, setup: &Setup) -> Result<Vec<Kernel>, OutOfMemory>
    ensures { IfOk result (λ kernels. kernels.items
        ≡ map (booted setup.now) (range_with_len 0 setup.now.kernels)) }
{
    let shared = SharedSetup::new(alloc, setup)?;
    let mut kernels = Vec::new(alloc);
    for id in 0..setup.kernels {
        kernels.push(Kernel::boot_sharing(alloc, &shared, id)?)?;
    }
    Ok(kernels)
}

ghost use Rattle.std.specs.Prelude.{◌≡◌, ◌<◌, nat_lt, ◌&&◌, true, Some, None, length, slice_get};
ghost use Rattle.std.specs.Prelude.{is_some, option_copied, IfOk, OnOk, OnErr};
ghost use Rattle.std.specs.List.{Contains};
ghost use Rattle.std.specs.Option.{option_map};
ghost use Rattle.sem_key.specs.Capability.{capability_of};
ghost use Rattle.sem_msg.specs.Lookups.{kernel_of};
ghost use Rattle.sem_msg.specs.Masks.{IsMaskOf};
ghost use Rattle.sem_machine.specs.Sides.{is_alive, endpoint, cap, parked as parked_of, outbox};
ghost use Rattle.sem_machine.specs.Machine.{start_side, is_locally_enabled, local_step};
ghost use Rattle.sem_machine.specs.Machine.{local_entry, replied_vpe};
ghost use Rattle.sem_kernel.specs.KernelValue.{is_timely as is_timely_spec, IsInput};
ghost use Rattle.sem_kernel.specs.Listing.{AreVpeActs};
ghost use Rattle.sem_kernel.specs.Owning.{own_rows};

use crate::enabling::VpeActs;
use crate::own::{OwnVpe, own_vpes};
use crate::shared::SharedSetup;
use crate::stores::Stores;
use sem_key::{Cap, Key, Object, OutOfMemory, VPES};
use sem_msg::{Act, ENDPOINTS, Entry, Event, Message, Parked, Reply, Setup};
use std::alloc::Global;
use std::marker::Model;

/// A kernel of a setup, with everything that it keeps. Only `boot` and `room` take memory.
#[derive(Debug, Drop)]
pub struct Kernel {
    setup: SharedSetup,
    id: u32,
    stores: Stores,
    // The act that has its room.
    ready: Option<Act>,
    // Its VPEs, by number.
    own: Vec<OwnVpe>,
}

impl Model for Kernel {
    ghost use Rattle.sem_kernel.specs.KernelStores.{side_of};
    ghost use Rattle.sem_kernel.specs.KernelValue.{KernelValue, IsKernel};

    ghost Value = { KernelValue };

    ghost view = { λ k. record {
      setup = k.setup;
      id = k.id;
      side = side_of k.stores;
      ready = k.ready;
    } };

    ghost invariant = { λ k. IsKernel k.setup k.id k.stores k.ready k.own.items };
}

impl Kernel {
    /// The kernel of that number at the start. It keeps a copy of the setup.
    ///
    /// The number must be below the setup's number of kernels.
    pub fn boot(alloc: Global, setup: &Setup, id: u32) -> Result<Self, OutOfMemory>
        requires { id < setup.now.kernels }
        ensures { IfOk result (λ k. k ≡ record {
          setup = setup.now;
          id = id;
          side = start_side setup.now id;
          ready = None;
        }) }
    {
        Kernel::boot_sharing(alloc, &SharedSetup::new(alloc, setup)?, id)
    }

    // The kernel of that number at the start; it shares the setup.
    pub fn boot_sharing(alloc: Global, shared: &SharedSetup, id: u32) -> Result<Self, OutOfMemory>
        requires { id < shared.now.kernels }
        ensures { IfOk result (λ k. k ≡ record {
          setup = shared.now;
          id = id;
          side = start_side shared.now id;
          ready = None;
        }) }
    {
        let setup = shared.get();
        setup.keeps_its_rules();
        let stores = Stores::boot(alloc, setup, id)?;
        let own = own_vpes(alloc, setup, id)?;
        Ok(Kernel {
            setup: shared.share()?,
            id,
            stores,
            ready: None,
            own,
        })
    }

    /// The number of the kernel, from 0.
    pub fn id(&self) -> u32
        ensures { result ≡ self.now.id }
    {
        self.id
    }

    /// Whether the act is enabled after that many replies, as far as the kernel can tell. For a
    /// fetch it does not know the link; for a flush it does not know whether the link has room.
    pub fn enabled(&self, act: Act, replies: u64) -> bool
        ensures { result ≡ (is_locally_enabled self.now.setup self.now.id self.now.side act
            && is_timely_spec self.now.setup replies act) }
    {
        is_timely(self.setup.get(), replies, act)
            && self.stores.is_enabled(self.setup.get(), self.id, act)
    }

    /// Whether a message is in the inbox.
    pub fn is_handling(&self) -> bool
        ensures { result ≡ is_some self.now.side.inbox }
    {
        self.stores.inbox.is_some()
    }

    /// Its VPEs, by number.
    pub fn own_vpes(&self) -> &[OwnVpe]
        ensures { result.now ≡ own_rows self.now.setup self.now.id }
    {
        &self.own
    }

    // Which acts of one of its VPEs are enabled.
    pub(crate) fn vpe_acts(&self, own: OwnVpe) -> VpeActs
        requires { Contains (own_rows self.now.setup self.now.id) own }
        ensures { AreVpeActs self.now.setup self.now.id self.now.side own.vpe result }
    {
        self.stores.vpe_acts(self.setup.get(), self.id, own)
    }

    /// Whether the VPE, one of this kernel, is alive.
    pub fn is_alive(&self, vpe: u16) -> bool
        requires { kernel_of self.now.setup vpe ≡ self.now.id }
        ensures { result ≡ is_alive self.now.side vpe }
    {
        self.stores.vpes.alive(vpe)
    }

    /// The key that an endpoint of the VPE is bound to, and the object that its capability had
    /// then; none if the endpoint is not bound.
    ///
    /// The VPE must be one of this kernel, and the endpoint must be at most 15.
    pub fn binding(&self, vpe: u16, ep: u8) -> Option<(Key, Object)>
        requires vpe { kernel_of self.now.setup vpe ≡ self.now.id }
        requires ep { ep < ENDPOINTS }
        ensures { result ≡ option_map (λ e. (e.key, e.object)) (endpoint self.now.side vpe ep) }
    {
        self.stores.dtus.binding(vpe, ep)
    }

    /// The capability of that key; none if the kernel does not hold the key.
    pub fn held(&self, key: Key) -> Option<&Cap>
        ensures { option_map capability_of (option_copied result) ≡ cap self.now.side key }
    {
        self.stores.caps.get(key)
    }

    /// The state in which a call of the VPE waits; none if no call of it waits.
    ///
    /// The VPE must be 0 to 127.
    pub fn parked(&self, vpe: u16) -> Option<Parked>
        requires { vpe < VPES }
        ensures { result ≡ parked_of self.now.side vpe }
    {
        self.stores.park.state(vpe)
    }

    /// The held capability at that place, in rising key order, counted from 0; none past the end.
    pub fn capability(&self, place: usize) -> Option<&Cap>
        ensures { option_map capability_of (option_copied result)
            ≡ slice_get self.now.side.caps place }
    {
        self.stores.caps.at(place)
    }

    /// How many capabilities the kernel holds.
    pub fn capability_count(&self) -> usize
        ensures { result ≡ length self.now.side.caps }
    {
        self.stores.caps.len()
    }

    /// The oldest message that waits to be sent to the kernel `to`; none if none waits.
    ///
    /// `to` must be below the setup's number of kernels.
    pub fn front(&self, to: u32) -> Option<Message>
        requires { to < self.now.setup.kernels }
        ensures { result ≡ slice_get (outbox self.now.side to) 0 }
    {
        self.stores.outs.front(to)
    }

    /// The kernels for which messages wait to be sent, a bit for each.
    pub fn filled(&self) -> u32
        ensures { IsMaskOf (λ to. nat_lt to self.now.setup.kernels
            && is_some (slice_get (outbox self.now.side to) 0)) result }
    {
        self.stores.outs.filled()
    }

    /// Makes all the room that the step of the act can need; the act is ready then. If memory is
    /// refused, all is as before.
    pub fn room(&mut self, act: Act) -> Result<(), OutOfMemory>
        ensures ok { OnOk result (self.new ≡ record self.old { ready = Some act }) }
        ensures err { OnErr result (self.new ≡ self.old) }
    {
        if self.stores.is_enabled(self.setup.get(), self.id, act) {
            return self.make_room(act);
        }
        self.ready = Some(act);
        Ok(())
    }

    // The same, for an act that is enabled as far as the kernel's side tells.
    pub(crate) fn make_room(&mut self, act: Act) -> Result<(), OutOfMemory>
        requires { is_locally_enabled self.old.setup self.old.id self.old.side act ≡ true }
        ensures ok { OnOk result (self.new ≡ record self.old { ready = Some act }) }
        ensures err { OnErr result (self.new ≡ self.old) }
    {
        self.stores.room(self.setup.get(), self.id, act)?;
        self.ready = Some(act);
        Ok(())
    }

    /// Does the act, and returns its entry. No act is ready then.
    ///
    /// The act must be enabled, as far as the kernel's side tells, and ready. A fetch gets the
    /// message that it takes out of the link; every other act gets none.
    pub fn step(&mut self, act: Act, input: Option<Message>) -> Entry
        requires enabled { is_locally_enabled self.old.setup self.old.id self.old.side act ≡ true }
        requires ready { self.old.ready ≡ Some act }
        requires input { IsInput act input }
        ensures step { self.new
            ≡ record self.old {
              side =
                  (local_step self.old.setup self.old.id self.old.side act input).side;
              ready = None;
            } }
        ensures entry { result ≡ local_entry self.old.setup self.old.id self.old.side act input }
    {
        let (detail, outcome) = self.stores.act(self.setup.get(), self.id, act, &input);
        self.ready = None;
        Entry {
            event: Event {
                kernel: self.id,
                act,
            },
            detail,
            grant: outcome.grant,
            cut: outcome.cut,
            reply: outcome.reply.map(|code| Reply {
                vpe: act.replied_vpe(),
                code,
            }),
        }
    }
}

// Whether the act comes in time: a kill waits for its number of replies.
fn is_timely(setup: &Setup, replies: u64, act: Act) -> bool
    ensures { result ≡ is_timely_spec setup.now replies act }
{
    match act {
        Act::Kill { vpe } => setup.is_due(replies, vpe),
        _ => true,
    }
}

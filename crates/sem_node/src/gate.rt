// Before each step of a kernel its thread goes through a gate.
ghost use Rattle.std.specs.Prelude.{◌≡◌, ◌&&◌, true, Some, None, is_some, IfSome, OnOk, OnErr};
ghost use Rattle.sem_msg.specs.Lookups.{kernel_of};
ghost use Rattle.sem_machine.specs.Machine.{is_locally_enabled, local_step, local_entry};
ghost use Rattle.sem_kernel.specs.KernelValue.{is_timely, IsInput};
ghost use Rattle.sem_kernel.specs.Worlds.{is_passable, CanTry, HasReplied, HasNotDone};

use sem_fabric::Fabric;
use sem_kernel::{Kernel, try_step};
use sem_key::OutOfMemory;
use sem_msg::{Act, Entry, Message, act_number};
use std::marker::Model;

/// A hook before each step of a kernel; it may hold the kernel's thread up.
pub trait Gate {
    /// The kernel is about to do an act of that number (`act_number`).
    fn before(&self, kernel: u32, act: u8);
}

/// A gate that holds no thread up.
#[derive(Drop)]
pub struct OpenGate;

impl Gate for OpenGate {
    fn before(&self, _kernel: u32, _act: u8) {}
}

/// The leave of a kernel to do one act. It comes from the gate alone, and the step takes it.
#[derive(Drop)]
pub struct Permit {
    kernel: u32,
    act: Act,
}

impl Permit {
    /// Goes through the gate, before that act of the kernel.
    pub fn of<G: Gate>(gate: &G, kernel: u32, act: Act) -> Permit
        ensures { result ≡ record { kernel = kernel; act = act } }
    {
        gate.before(kernel, act_number(act));
        Permit { kernel, act }
    }
}

/// A kernel that steps with a permit alone.
#[derive(Drop)]
pub struct Gated {
    kernel: Kernel,
}

impl Model for Gated {
    ghost use Rattle.sem_kernel.specs.KernelValue.{KernelValue};

    ghost Value = { KernelValue };

    ghost view = { λ g. g.kernel };
}

impl Gated {
    pub fn new(kernel: Kernel) -> Self
        ensures { result ≡ kernel }
    {
        Gated { kernel }
    }

    pub fn into_kernel(self) -> Kernel
        ensures { result ≡ self }
    {
        let Gated { kernel } = self;
        kernel
    }

    /// The number of the kernel.
    pub fn id(&self) -> u32
        ensures { result ≡ self.now.id }
    {
        self.kernel.id()
    }

    /// Whether the act is enabled, as `Kernel::enabled` tells it.
    pub fn enabled(&self, act: Act, replies: u64) -> bool
        ensures { result ≡ (is_locally_enabled self.now.setup self.now.id self.now.side act
            && is_timely self.now.setup replies act) }
    {
        self.kernel.enabled(act, replies)
    }

    /// Whether a message is in the kernel's inbox.
    pub fn is_handling(&self) -> bool {
        self.kernel.is_handling()
    }

    /// The kernels for which messages wait to be sent, a bit for each.
    pub fn filled(&self) -> u32 {
        self.kernel.filled()
    }

    /// Whether the VPE, one of this kernel, is alive.
    pub fn is_alive(&self, vpe: u16) -> bool
        requires { kernel_of self.now.setup vpe ≡ self.now.id }
    {
        self.kernel.is_alive(vpe)
    }

    /// Makes all the room that the step of the act can need, as `Kernel::room`.
    pub fn room(&mut self, act: Act) -> Result<(), OutOfMemory>
        ensures ok { OnOk result (self.new ≡ record self.old { ready = Some act }) }
        ensures err { OnErr result (self.new ≡ self.old) }
    {
        self.kernel.room(act)
    }

    /// Does the act, as `Kernel::step`, with the permit for it.
    pub fn step(&mut self, permit: Permit, act: Act, input: Option<Message>) -> Entry
        requires permit { permit ≡ record { kernel = self.old.id; act = act } }
        requires enabled { is_locally_enabled self.old.setup self.old.id self.old.side act ≡ true }
        requires ready { self.old.ready ≡ Some act }
        requires input { IsInput act input }
        ensures step { self.new
            ≡ record self.old {
              side =
                  (local_step self.old.setup self.old.id self.old.side act input).side;
              ready = None;
            } }
        ensures entry { result ≡ local_entry self.old.setup self.old.id self.old.side act input }
    {
        let Permit { kernel: _, act: _ } = permit;
        self.kernel.step(act, input)
    }

    /// Does the act with the fabric, as `try_step`, with the permit for it.
    pub fn try_step(&mut self, permit: Permit, fabric: &mut Fabric, act: Act) -> Option<bool>
        requires permit { permit ≡ record { kernel = self.old.id; act = act } }
        requires can { CanTry self.old fabric.old act }
        ensures allowed { is_some result ≡ is_passable fabric.old self.old.id act }
        ensures done { IfSome result (HasReplied self.old fabric.old act self.new fabric.new) }
        ensures not_done { result ≡ None → HasNotDone self.old fabric.old self.new fabric.new }
    {
        let Permit { kernel: _, act: _ } = permit;
        try_step(&mut self.kernel, fabric, act)
    }
}

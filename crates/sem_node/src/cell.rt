ghost use Rattle.std.specs.Prelude.{◌≡◌, if◌then◌else◌, false, MatchBool, None, IfOk, OnErr};
ghost use Rattle.sem_msg.specs.declared.event.Act.TheVariants.{Kill};
ghost use Rattle.sem_msg.specs.Fabric.{IsOwnAct};
ghost use Rattle.sem_msg.specs.Lookups.{kernel_of};
ghost use Rattle.sem_node.specs.declared.cell.Progress.TheVariants.{Done, Replied};
ghost use Rattle.sem_node.specs.Running.{HasRun};
ghost use Rattle.sem_node.specs.Telling.{HasOneMore, TellsProgress, has_moved};

use crate::bell::Bell;
use crate::gate::{Gate, Gated, Permit};
use crate::killing::enter_kill;
use crate::linking::{Linked, turn_step};
use crate::turns::{enter, reserve};
use sem_kernel::Kernel;
use sem_key::OutOfMemory;
use sem_msg::Act;
use sem_turn::{Pass, RunName, Turn};
use std::marker::{Model, PhantomData};
use std::sync::Wait;
use std::sync::atomic::AtomicBool;

/// What became of an act.
#[derive(Clone, Copy, Debug, PartialEq, Eq)]
pub enum Progress {
    /// The act was not enabled, and nothing was done.
    Nothing,
    /// The act was done.
    Done,
    /// The act was done and answered a call. The journal has that many replies then.
    Replied(u64),
}

/// A VPE that makes calls, one after another.
#[derive(Drop)]
pub struct Caller<N: RunName> {
    pub kernel: u32,
    pub vpe: u16,
    pub calls: usize,
    pub of: PhantomData<N>,
    /// The bell of the thread that makes the calls.
    pub bell: Bell,
    // Whether a thread that finds that the call can go on, or that the VPE has ended, should ring
    // the bell.
    pub due: AtomicBool,
    ghost own: { kernel_of N.setup vpe ≡ kernel },
}

/// A kernel with its pass, guarded by the kernel's lock. The pass does not hold the turn, and its
/// entries are a local run of the kernel.
#[derive(Drop)]
pub struct KernelCell<N: RunName> {
    pub(crate) kernel: Gated,
    pub(crate) pass: Pass<N>,
    // Whether the kernel has a place in the journal, as of its last turn.
    placed: bool,
}

impl<N: RunName> Model for KernelCell<N> {
    ghost use Rattle.std.specs.Prelude.{◌≡◌, None, true};
    ghost use Rattle.sem_node.specs.Running.{CellValue, HasRun};

    ghost Value = { CellValue };

    ghost view = { λ c. record { kernel = c.kernel; pass = c.pass } };

    ghost invariant = { λ c.
        HasRun N.setup c.kernel c.pass × (c.pass.taken ≡ None)
        × (c.placed ≡ true → c.pass.placed ≡ true) };
}

// What became of an entered act, which may have answered a call.
fn progress_of(replied: bool, replies: u64) -> Progress
    ensures { result ≡ (if replied then Replied replies else Done) }
{
    if replied {
        Progress::Replied(replies)
    } else {
        Progress::Done
    }
}

impl<N: RunName> KernelCell<N> {
    /// A kernel with its pass.
    pub fn new(kernel: Kernel, pass: Pass<N>) -> Self
        requires run { HasRun N.setup kernel pass }
        requires free { pass.taken ≡ None }
    {
        KernelCell {
            kernel: Gated::new(kernel),
            pass,
            placed: false,
        }
    }

    /// The kernel and its pass, taken apart.
    pub fn into_parts(self) -> (Kernel, Pass<N>)
        ensures run { HasRun N.setup result.0 result.1 }
        ensures free { result.1.taken ≡ None }
    {
        let KernelCell {
            kernel,
            pass,
            placed: _,
        } = self;
        (kernel.into_kernel(), pass)
    }

    /// Whether the act is enabled as far as the kernel can tell. For a fetch it does not know the
    /// link, for a flush whether the link has room, and for a kill whether it is due.
    pub fn can(&self, act: Act) -> bool {
        self.kernel.enabled(act, u64::MAX)
    }

    /// Whether a message is in the kernel's inbox.
    pub fn is_handling(&self) -> bool {
        self.kernel.is_handling()
    }

    /// The kernels for which messages wait to be sent, a bit for each.
    pub fn filled(&self) -> u32 {
        self.kernel.filled()
    }

    /// Whether the VPE, one of this kernel, has ended.
    pub fn has_ended(&self, caller: &Caller<N>) -> bool {
        self.kernel.id() == caller.kernel && !self.kernel.is_alive(caller.vpe)
    }

    /// Does an act that the kernel does alone. It steps outside the turn, and enters in one turn,
    /// which also makes the next place.
    pub fn act_alone<W: Wait, G: Gate>(
        &mut self,
        rt: &W,
        turn: &Turn<N>,
        gate: &G,
        act: Act,
    ) -> Result<Progress, OutOfMemory>
        requires { IsOwnAct act }
        ensures told { IfOk result (TellsProgress act self.old.pass.entries self.new.pass.entries) }
        ensures err { OnErr result (self.new.pass.entries ≡ self.old.pass.entries) }
    {
        if !self.kernel.enabled(act, 0) {
            return Ok(Progress::Nothing);
        }
        let permit = Permit::of(gate, self.kernel.id(), act);
        self.kernel.room(act)?;
        reserve(rt, turn, &mut self.pass, self.placed)?;
        let entry = self.kernel.step(permit, act, None);
        let replied = entry.reply.is_some();
        let entered = enter(rt, turn, &mut self.pass, entry);
        self.placed = entered.placed;
        Ok(progress_of(replied, entered.replies))
    }

    /// Kills a VPE, if that is due. It tests and enters in one turn, which also makes the next
    /// place, and steps after it. Returns whether it was done.
    pub fn kill<W: Wait, G: Gate>(
        &mut self,
        rt: &W,
        turn: &Turn<N>,
        gate: &G,
        vpe: u16,
    ) -> Result<bool, OutOfMemory>
        ensures told { IfOk result (λ due. MatchBool due
            (HasOneMore (Kill vpe) false self.old.pass.entries self.new.pass.entries)
            (self.new.pass.entries ≡ self.old.pass.entries)) }
        ensures err { OnErr result (self.new.pass.entries ≡ self.old.pass.entries) }
    {
        let act = Act::Kill { vpe };
        if !self.kernel.enabled(act, u64::MAX) {
            return Ok(false);
        }
        let permit = Permit::of(gate, self.kernel.id(), act);
        self.kernel.room(act)?;
        reserve(rt, turn, &mut self.pass, self.placed)?;
        let killed = enter_kill(rt, turn, &mut self.pass, &self.kernel, vpe);
        self.placed = killed.placed;
        if killed.due {
            self.kernel.step(permit, act, None);
        }
        Ok(killed.due)
    }

    /// Does a fetch or a flush. It tests, steps and enters in one turn, which also makes the next
    /// place. None if the kernel cannot do the act, whatever the links are.
    pub fn act_within<W: Wait, G: Gate>(
        &mut self,
        rt: &W,
        turn: &Turn<N>,
        gate: &G,
        act: Act,
    ) -> Result<Option<Linked>, OutOfMemory>
        ensures told { IfOk result (λ linked. MatchBool (has_moved linked)
            (HasOneMore act false self.old.pass.entries self.new.pass.entries)
            (self.new.pass.entries ≡ self.old.pass.entries)) }
        ensures err { OnErr result (self.new.pass.entries ≡ self.old.pass.entries) }
    {
        if !self.kernel.enabled(act, u64::MAX) {
            return Ok(None);
        }
        let permit = Permit::of(gate, self.kernel.id(), act);
        self.kernel.room(act)?;
        let mut fabric = turn.take(rt, &mut self.pass);
        let tried = turn_step(&mut self.kernel, &mut fabric, permit, act);
        self.placed = tried.placed;
        turn.give_back(&mut self.pass, fabric);
        Ok(Some(tried.linked?))
    }
}

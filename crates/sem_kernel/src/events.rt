// The events of kernels and their fabric.
ghost use Rattle.std.specs.Prelude.{◌≡◌, ◌<◌, ◌&&◌, ◌↔◌, ◌∷◌, ◌++◌, true, false, []};
ghost use Rattle.std.specs.Prelude.{slice_index_or, None, is_some, IfSome, IfOk, OnOk, OnErr};
ghost use Rattle.std.specs.Prelude.{IsErrOf};
ghost use Rattle.sem_msg.specs.Fabric.{entered};
ghost use Rattle.sem_machine.specs.Machine.{is_enabled as is_enabled_spec, after as after_spec};
ghost use Rattle.sem_machine.specs.Machine.{entry_of};
ghost use Rattle.sem_kernel.specs.Worlds.{world_of, AreKernelsOf, IsFabricOf};
ghost use Rattle.sem_kernel.specs.Worlds.{can_do as can_do_spec};
ghost use Rattle.sem_kernel.specs.Worlds.{is_passable as is_passable_spec, CanDo, CanTry};
ghost use Rattle.sem_kernel.specs.Worlds.{HasReplied, HasNotDone};
ghost use Rattle.sem_kernel.specs.Standing.{StandsAt};

use crate::carrying::{carry, is_passable};
use crate::kernel::Kernel;
use sem_fabric::Fabric;
use sem_key::OutOfMemory;
use sem_msg::{Act, Entry, Event, Setup};
use thiserror::Error;

/// Why an event did not happen.
#[derive(Clone, Copy, Debug, PartialEq, Eq, Error)]
pub enum StepError {
    #[error("the event is not enabled")]
    NotEnabled,
    #[error("out of memory")]
    Memory,
}

impl From<OutOfMemory> for StepError {
    ghost use Rattle.sem_kernel.specs.declared.events.StepError.TheVariants.{Memory};

    ghost from_gives = { λ _ e. e ≡ Memory };

    fn from(_error: OutOfMemory) -> Self {
        StepError::Memory
    }
}

/// Whether the event is enabled. The kernels and the fabric must be those of the setup. Takes no
/// memory.
pub fn is_enabled(setup: &Setup, kernels: &[Kernel], fabric: &Fabric, event: Event) -> bool
    requires { AreKernelsOf setup.now kernels.now fabric.now }
    ensures { result ≡ is_enabled_spec setup.now (world_of kernels.now fabric.now) event }
{
    event.kernel < setup.kernels && can_do(&kernels[event.kernel as usize], fabric, event.act)
}

/// Does the event, if it is enabled, on kernels and their fabric, and returns its entry, which is
/// then in the journal. An event that is not enabled is refused. After a refusal, or if memory is
/// refused, the world is as before.
pub fn do_event(
    setup: &Setup,
    kernels: &mut Vec<Kernel>,
    fabric: &mut Fabric,
    event: Event,
) -> Result<Entry, StepError>
    requires { AreKernelsOf setup.now kernels.old.items fabric.old }
    ensures together { AreKernelsOf setup.now kernels.new.items fabric.new }
    ensures not_enabled { IsErrOf result StepError.NotEnabled
        ↔ (is_enabled_spec setup.now (world_of kernels.old.items fabric.old) event ≡ false) }
    ensures entry { IfOk result (λ entry. entry
        ≡ entry_of setup.now (world_of kernels.old.items fabric.old) event) }
    ensures after { IfOk result (λ entry. world_of kernels.new.items fabric.new
        ≡ after_spec setup.now (world_of kernels.old.items fabric.old) event) }
    ensures journal { IfOk result (λ entry. fabric.new.journal ≡ fabric.old.journal ++ entry ∷ []) }
    ensures unchanged { OnErr result (world_of kernels.new.items fabric.new
        ≡ world_of kernels.old.items fabric.old) }
    ensures same_journal { OnErr result (fabric.new.journal ≡ fabric.old.journal) }
{
    setup.keeps_its_rules();
    if !is_enabled(setup, kernels.as_slice(), fabric, event) {
        return Err(StepError::NotEnabled);
    }
    Ok(do_enabled_event(setup, kernels, fabric, event)?)
}

/// Does the event, an enabled one, on kernels and their fabric, and returns its entry, which is
/// then in the journal. If memory is refused, the world is as before. In both cases, kernels and a
/// fabric that stand at a schedule still stand at one.
pub fn do_enabled_event(
    setup: &Setup,
    kernels: &mut Vec<Kernel>,
    fabric: &mut Fabric,
    event: Event,
) -> Result<Entry, OutOfMemory>
    requires together { AreKernelsOf setup.now kernels.old.items fabric.old }
    requires enabled { is_enabled_spec setup.now (world_of kernels.old.items fabric.old) event
        ≡ true }
    ensures together { AreKernelsOf setup.now kernels.new.items fabric.new }
    ensures entry { IfOk result (λ entry. entry
        ≡ entry_of setup.now (world_of kernels.old.items fabric.old) event) }
    ensures after { IfOk result (λ entry. world_of kernels.new.items fabric.new
        ≡ after_spec setup.now (world_of kernels.old.items fabric.old) event) }
    ensures journal { IfOk result (λ entry. fabric.new.journal ≡ fabric.old.journal ++ entry ∷ []) }
    ensures unchanged { OnErr result (world_of kernels.new.items fabric.new
        ≡ world_of kernels.old.items fabric.old) }
    ensures same_journal { OnErr result (fabric.new.journal ≡ fabric.old.journal) }
    ensures stands { StandsAt setup.now kernels.old.items fabric.old
        → StandsAt setup.now kernels.new.items fabric.new }
{
    advance(setup, kernels, fabric, event)?;
    // The entry is the last of the journal.
    let entries = fabric.journal().as_slice();
    Ok(entries[entries.len() - 1])
}

/// Does the event as `do_enabled_event`, and tells only whether its entry has a reply.
pub fn advance(
    setup: &Setup,
    kernels: &mut Vec<Kernel>,
    fabric: &mut Fabric,
    event: Event,
) -> Result<bool, OutOfMemory>
    requires together { AreKernelsOf setup.now kernels.old.items fabric.old }
    requires enabled { is_enabled_spec setup.now (world_of kernels.old.items fabric.old) event
        ≡ true }
    ensures together { AreKernelsOf setup.now kernels.new.items fabric.new }
    ensures replied { IfOk result (λ b. b
        ≡ is_some (entry_of setup.now (world_of kernels.old.items fabric.old) event).reply) }
    ensures after { OnOk result (world_of kernels.new.items fabric.new
        ≡ after_spec setup.now (world_of kernels.old.items fabric.old) event) }
    ensures journal { OnOk result (fabric.new.journal ≡ fabric.old.journal
        ++ entry_of setup.now (world_of kernels.old.items fabric.old) event ∷ []) }
    ensures unchanged { OnErr result (world_of kernels.new.items fabric.new
        ≡ world_of kernels.old.items fabric.old) }
    ensures same_journal { OnErr result (fabric.new.journal ≡ fabric.old.journal) }
    ensures stands { StandsAt setup.now kernels.old.items fabric.old
        → StandsAt setup.now kernels.new.items fabric.new }
{
    setup.keeps_its_rules();
    let kernel = &mut kernels[event.kernel as usize];
    step(kernel, fabric, event.act)
}

fn can_do(kernel: &Kernel, fabric: &Fabric, act: Act) -> bool
    requires few { kernel.now.id < kernel.now.setup.kernels }
    requires fabric { IsFabricOf kernel.now.setup fabric.now }
    ensures { result ≡ can_do_spec kernel.now fabric.now act }
{
    kernel.enabled(act, fabric.replies()) && is_passable(fabric, kernel.id(), act)
}

// Lets the kernel do the act with the fabric, and tells whether its entry has a reply. If memory is
// refused, nothing is done.
fn step(kernel: &mut Kernel, fabric: &mut Fabric, act: Act) -> Result<bool, OutOfMemory>
    requires { CanDo kernel.old fabric.old act }
    ensures ok { IfOk result (HasReplied kernel.old fabric.old act kernel.new fabric.new) }
    ensures err { OnErr result (HasNotDone kernel.old fabric.old kernel.new fabric.new) }
{
    kernel.make_room(act)?;
    fabric.reserve(kernel.id())?;
    let Some(replied) = try_step(kernel, fabric, act) else {
        unreachable!()
    };
    Ok(replied)
}

/// Lets the kernel do the act with the fabric, if the links allow it: moves the message of the act,
/// steps, and enters the entry. Returns whether the entry has a reply; none if the links do not
/// allow the act, and then nothing changes. Takes no memory.
///
/// The kernel and the fabric must be of one setup. The act must be enabled, as far as the kernel's
/// side tells, and ready, and the kernel must have a place in the journal.
pub fn try_step(kernel: &mut Kernel, fabric: &mut Fabric, act: Act) -> Option<bool>
    requires { CanTry kernel.old fabric.old act }
    ensures allowed { is_some result ≡ is_passable_spec fabric.old kernel.old.id act }
    ensures done { IfSome result (HasReplied kernel.old fabric.old act kernel.new fabric.new) }
    ensures not_done { result ≡ None → HasNotDone kernel.old fabric.old kernel.new fabric.new }
{
    if !is_passable(fabric, kernel.id(), act) {
        return None;
    }
    let input = carry(kernel, fabric, act);
    let entry = kernel.step(act, input);
    enter(fabric, &entry);
    Some(entry.reply.is_some())
}

// Appends the entry to the journal, at its kernel's place there.
fn enter(fabric: &mut Fabric, entry: &Entry)
    requires kernel { entry.now.event.kernel < fabric.old.kernels }
    requires place { slice_index_or fabric.old.places entry.now.event.kernel false ≡ true }
    ensures { fabric.new ≡ entered entry.now fabric.old }
{
    fabric.enter(*entry);
}

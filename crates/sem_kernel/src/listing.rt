// The list of the enabled events of kernels and their fabric.
ghost use Rattle.std.specs.Prelude.{◌≡◌, ◌<◌, ◌==◌, ◌||◌, ◌++◌, ◌∷◌, [], map};
ghost use Rattle.std.specs.Prelude.{IfOk, OnOk, OnErr};
ghost use Rattle.sem_msg.specs.declared.event.Act.TheVariants.{Handle, Kill};
ghost use Rattle.sem_msg.specs.Masks.{has_bit};
ghost use Rattle.sem_machine.specs.Machine.{event, enabled};
ghost use Rattle.sem_kernel.specs.declared.listing.PeerRow.TheVariants.{Fetches, Flushes};
ghost use Rattle.sem_kernel.specs.declared.listing.VpeRow.TheVariants.{Calls, Resumes, Upcalls};
ghost use Rattle.sem_kernel.specs.Worlds.{world_of, AreKernelsOf};
ghost use Rattle.sem_kernel.specs.Listing.{enabled_of, enabled_among, enabled_in, enabled_peers};
ghost use Rattle.sem_kernel.specs.Listing.{IsKernelAmong, IsVpeMaskOf, others_in, peer_act, vpe_act};
ghost use Rattle.sem_kernel.specs.Listing.{vpe_events};

use crate::events::is_enabled;
use crate::kernel::Kernel;
use sem_fabric::Fabric;
use sem_key::{OutOfMemory, VPES};
use sem_msg::{Act, Event, Setup, with_bit, without};
use std::alloc::Global;

// The rows of events that go through the VPEs.
#[derive(Clone, Copy)]
enum VpeRow {
    Calls,
    Resumes,
    Upcalls,
}

impl VpeRow {
    // The act of the row for a VPE.
    fn act(self, vpe: u16) -> Act
        ensures { result ≡ vpe_act self vpe }
    {
        match self {
            VpeRow::Calls => Act::Call { vpe },
            VpeRow::Resumes => Act::Resume { vpe },
            VpeRow::Upcalls => Act::Upcall { vpe },
        }
    }
}

// The rows of events that go through the other kernels.
#[derive(Clone, Copy)]
enum PeerRow {
    Fetches,
    Flushes,
}

impl PeerRow {
    // The act of the row for a kernel.
    fn act(self, peer: u32) -> Act
        ensures { result ≡ peer_act self peer }
    {
        match self {
            PeerRow::Fetches => Act::Fetch { from: peer },
            PeerRow::Flushes => Act::Flush { to: peer },
        }
    }
}

// VPEs of a kernel, a bit for each: those with an enabled resume, and those with an enabled upcall.
#[derive(Clone, Copy)]
struct VpeMasks {
    resumes: u128,
    upcalls: u128,
}

/// Replaces the list by the enabled events, kernel by kernel. For each kernel come its calls,
/// resumes and upcalls, its handling, its fetches, flushes and kills, each row by rising numbers.
/// The kernels and the fabric must be those of the setup. If memory is refused, the list stays as
/// it was.
pub fn enabled_events(
    alloc: Global,
    setup: &Setup,
    kernels: &[Kernel],
    fabric: &Fabric,
    out: &mut Vec<Event>,
) -> Result<(), OutOfMemory>
    requires { AreKernelsOf setup.now kernels.now fabric.now }
    ensures ok { OnOk result (out.new.items ≡ enabled setup.now (world_of kernels.now fabric.now)) }
    ensures err { OnErr result (out.new.items ≡ out.old.items) }
{
    let mut events = Vec::new(alloc);
    for kernel in 0..setup.kernels {
        append_enabled(setup, kernels, fabric, kernel, &mut events)?;
    }
    *out = events;
    Ok(())
}

/// Appends the enabled events of one kernel, in order. The kernels and the fabric must be those of
/// the setup.
pub fn append_enabled(
    setup: &Setup,
    kernels: &[Kernel],
    fabric: &Fabric,
    kernel: u32,
    out: &mut Vec<Event>,
) -> Result<(), OutOfMemory>
    requires { AreKernelsOf setup.now kernels.now fabric.now }
    ensures { OnOk result (out.new.items ≡ out.old.items
        ++ enabled_of setup.now (world_of kernels.now fabric.now) kernel) }
{
    if kernel >= setup.kernels {
        return Ok(());
    }
    append_rows(setup, kernels, fabric, kernel, out)
}

// Appends the enabled events of one kernel of the setup, in order. In one function with the test
// above it, the compiler would not take the rows in, and a run would take longer.
fn append_rows(
    setup: &Setup,
    kernels: &[Kernel],
    fabric: &Fabric,
    kernel: u32,
    out: &mut Vec<Event>,
) -> Result<(), OutOfMemory>
    requires { IsKernelAmong setup.now kernels.now fabric.now kernel }
    ensures { OnOk result (out.new.items ≡ out.old.items
        ++ enabled_of setup.now (world_of kernels.now fabric.now) kernel) }
{
    let masks = append_calls(setup, kernels, fabric, kernel, out)?;
    append_vpes(kernel, VpeRow::Resumes, masks.resumes, out)?;
    append_vpes(kernel, VpeRow::Upcalls, masks.upcalls, out)?;
    append_handling(setup, kernels, fabric, kernel, out)?;
    append_fetches(setup, kernels, fabric, kernel, out)?;
    append_flushes(setup, kernels, fabric, kernel, out)?;
    append_kills(setup, kernels, fabric, kernel, out)
}

// Appends the enabled calls of the kernel, and returns the VPEs with an enabled resume and those
// with an enabled upcall.
fn append_calls(
    setup: &Setup,
    kernels: &[Kernel],
    fabric: &Fabric,
    kernel: u32,
    out: &mut Vec<Event>,
) -> Result<VpeMasks, OutOfMemory>
    requires { IsKernelAmong setup.now kernels.now fabric.now kernel }
    ensures calls { OnOk result (out.new.items ≡ out.old.items
        ++ enabled_in setup.now (world_of kernels.now fabric.now) kernel Calls) }
    ensures resumes { IfOk result (λ masks. vpe_events kernel Resumes masks.resumes
        ≡ enabled_in setup.now (world_of kernels.now fabric.now) kernel Resumes) }
    ensures upcalls { IfOk result (λ masks. vpe_events kernel Upcalls masks.upcalls
        ≡ enabled_in setup.now (world_of kernels.now fabric.now) kernel Upcalls) }
{
    setup.keeps_its_rules();
    let mut resumes = 0;
    let mut upcalls = 0;
    // A VPE of another kernel has no events here.
    let this = &kernels[kernel as usize];
    for own in this.own_vpes() {
        let acts = this.vpe_acts(*own);
        if acts.call {
            out.push(Event {
                kernel,
                act: VpeRow::Calls.act(own.vpe),
            })?;
        }
        if acts.resume {
            resumes = with_vpe(resumes, own.vpe);
        }
        if acts.upcall {
            upcalls = with_vpe(upcalls, own.vpe);
        }
    }
    Ok(VpeMasks { resumes, upcalls })
}

// The mask with a bit for the VPE too.
fn with_vpe(mask: u128, vpe: u16) -> u128
    requires { vpe < VPES }
    ensures { IsVpeMaskOf (λ v. has_bit mask v || (v == vpe)) result }
{
    mask | 1 << vpe
}

// Appends the event of a row for each VPE that has a bit in the mask, in their order.
fn append_vpes(
    kernel: u32,
    row: VpeRow,
    mask: u128,
    out: &mut Vec<Event>,
) -> Result<(), OutOfMemory>
    ensures { OnOk result (out.new.items ≡ out.old.items ++ vpe_events kernel row mask) }
{
    let mut left = mask;
    while left != 0 {
        let vpe = left.trailing_zeros();
        left &= !(1 << vpe);
        out.push(Event {
            kernel,
            act: row.act(vpe as u16),
        })?;
    }
    Ok(())
}

// Appends the handling of the message in the kernel's inbox, if there is one.
fn append_handling(
    setup: &Setup,
    kernels: &[Kernel],
    fabric: &Fabric,
    kernel: u32,
    out: &mut Vec<Event>,
) -> Result<(), OutOfMemory>
    requires { IsKernelAmong setup.now kernels.now fabric.now kernel }
    ensures { OnOk result (out.new.items ≡ out.old.items
        ++ enabled_among setup.now (world_of kernels.now fabric.now) (event kernel Handle ∷ [])) }
{
    if kernels[kernel as usize].is_handling() {
        out.push(Event {
            kernel,
            act: Act::Handle,
        })?;
    }
    Ok(())
}

// Appends the enabled fetches of the kernel. With a message in its inbox none is enabled.
fn append_fetches(
    setup: &Setup,
    kernels: &[Kernel],
    fabric: &Fabric,
    kernel: u32,
    out: &mut Vec<Event>,
) -> Result<(), OutOfMemory>
    requires { IsKernelAmong setup.now kernels.now fabric.now kernel }
    ensures { OnOk result (out.new.items ≡ out.old.items
        ++ enabled_peers setup.now (world_of kernels.now fabric.now) kernel Fetches) }
{
    setup.keeps_its_rules();
    if kernels[kernel as usize].is_handling() {
        return Ok(());
    }
    append_peers(kernel, PeerRow::Fetches, fabric.coming(kernel), out)
}

// Appends the enabled flushes of the kernel: to the kernels for which a message waits, where the
// link is not full.
fn append_flushes(
    setup: &Setup,
    kernels: &[Kernel],
    fabric: &Fabric,
    kernel: u32,
    out: &mut Vec<Event>,
) -> Result<(), OutOfMemory>
    requires { IsKernelAmong setup.now kernels.now fabric.now kernel }
    ensures { OnOk result (out.new.items ≡ out.old.items
        ++ enabled_peers setup.now (world_of kernels.now fabric.now) kernel Flushes) }
{
    setup.keeps_its_rules();
    let filled = kernels[kernel as usize].filled();
    let mask = without(filled, fabric.full_to(kernel));
    append_peers(kernel, PeerRow::Flushes, mask, out)
}

// Appends the event of a row for each other kernel that has a bit in the mask, in their order.
fn append_peers(
    kernel: u32,
    row: PeerRow,
    mask: u32,
    out: &mut Vec<Event>,
) -> Result<(), OutOfMemory>
    ensures { OnOk result (out.new.items ≡ out.old.items
        ++ map (λ j. event kernel (peer_act row j)) (others_in mask kernel)) }
{
    let mut left = with_bit(mask, kernel, false);
    while left != 0 {
        let peer = left.trailing_zeros();
        left &= !(1 << peer);
        out.push(Event {
            kernel,
            act: row.act(peer),
        })?;
    }
    Ok(())
}

// Appends the enabled kills of the kernel.
fn append_kills(
    setup: &Setup,
    kernels: &[Kernel],
    fabric: &Fabric,
    kernel: u32,
    out: &mut Vec<Event>,
) -> Result<(), OutOfMemory>
    requires { AreKernelsOf setup.now kernels.now fabric.now }
    ensures { OnOk result (out.new.items ≡ out.old.items
        ++ enabled_among setup.now (world_of kernels.now fabric.now)
        (map (λ k. event kernel (Kill k.0)) setup.now.kills)) }
{
    for kill in setup.kills.as_slice() {
        let event = Event {
            kernel,
            act: Act::Kill { vpe: kill.0 },
        };
        append_if_enabled(setup, kernels, fabric, event, out)?;
    }
    Ok(())
}

// Appends the event, if it is enabled.
fn append_if_enabled(
    setup: &Setup,
    kernels: &[Kernel],
    fabric: &Fabric,
    event: Event,
    out: &mut Vec<Event>,
) -> Result<(), OutOfMemory>
    requires { AreKernelsOf setup.now kernels.now fabric.now }
    ensures { OnOk result (out.new.items ≡ out.old.items
        ++ enabled_among setup.now (world_of kernels.now fabric.now) (event ∷ [])) }
{
    if is_enabled(setup, kernels, fabric, event) {
        out.push(event)?;
    }
    Ok(())
}

// What a kernel keeps at the start.
ghost use Rattle.std.specs.Prelude.{◌≡◌, ◌<◌, ◌≤◌, All, None, IfOk, OnOk};
ghost use Rattle.sem_key.specs.declared.limits.TheConstants.{NUMBERS, PES, VPES};
ghost use Rattle.sem_key.specs.CapList.{cap_of, fresh, with_cap};
ghost use Rattle.sem_msg.specs.Setup.{root_key as root_key_spec};
ghost use Rattle.sem_vpe.specs.Starting.{IsStartable};
ghost use Rattle.sem_machine.specs.Sides.{Side};
ghost use Rattle.sem_machine.specs.Machine.{start_side, vpe_added};
ghost use Rattle.sem_kernel.specs.KernelStores.{side_of, AreStoresOf};

use crate::stores::Stores;
use sem_caps::Caps;
use sem_delegate::Pendings;
use sem_dtu::Dtus;
use sem_jobs::{Jobs, Scratch};
use sem_key::{Key, OutOfMemory};
use sem_msg::{Outboxes, Root, Setup, VpeDecl};
use sem_park::Park;
use sem_vpe::Vpes;
use std::alloc::Global;

impl Stores {
    /// The stores of a kernel at the start, with what its VPEs hold then.
    pub fn boot(alloc: Global, setup: &Setup, kernel: u32) -> Result<Self, OutOfMemory>
        requires { kernel < setup.now.kernels }
        ensures side { IfOk result (λ x. side_of x ≡ start_side setup.now kernel) }
        ensures stores { IfOk result (AreStoresOf setup.now kernel) }
    {
        setup.keeps_its_rules();
        Ok(Stores {
            caps: start_caps(alloc, setup, kernel)?,
            vpes: Vpes::new(alloc, setup, kernel)?,
            dtus: Dtus::new(alloc, setup, kernel)?,
            park: Park::new(),
            pendings: Pendings::new(alloc)?,
            jobs: Jobs::new(alloc)?,
            inbox: None,
            outs: Outboxes::new(alloc, setup.kernels)?,
            scratch: Scratch::new(alloc),
            ended: Vec::new(alloc),
        })
    }
}

// The capabilities that the VPEs of a kernel hold at the start.
fn start_caps(alloc: Global, setup: &Setup, kernel: u32) -> Result<Caps, OutOfMemory>
    ensures { IfOk result (λ caps. caps.caps ≡ (start_side setup.now kernel).caps) }
{
    setup.keeps_its_rules();
    let mut caps = Caps::new(alloc)?;
    for decl in setup.vpes.as_slice() {
        if setup.pe_owner(decl.pe) == kernel {
            add_roots(&mut caps, decl)?;
        }
    }
    Ok(caps)
}

// Adds the roots and services of a VPE, in the order of their lines. Every capability held before
// belongs to a VPE of a smaller number.
fn add_roots(caps: &mut Caps, decl: &VpeDecl) -> Result<(), OutOfMemory>
    requires startable { IsStartable decl.now }
    requires before { All (λ c. c.key.vpe < decl.now.vpe) caps.old.caps }
    ensures row { OnOk result ((s : Side) →
        caps.new.caps ≡ (vpe_added decl.now (record s { caps = caps.old.caps })).caps) }
    ensures upto { OnOk result (All (λ c. c.key.vpe ≤ decl.now.vpe) caps.new.caps) }
{
    for (number, root) in decl.roots.as_slice().iter().enumerate() {
        add_root(caps, decl, number as u16, root)?;
    }
    Ok(())
}

// Adds a root or service of a VPE under the key of its number. That key must not be held.
fn add_root(caps: &mut Caps, decl: &VpeDecl, number: u16, root: &Root) -> Result<(), OutOfMemory>
    requires vpe { decl.now.vpe < VPES }
    requires pe { decl.now.pe < PES }
    requires number { number < NUMBERS }
    requires absent { cap_of caps.old.caps (root_key_spec decl.now number root.now) ≡ None }
    ensures { OnOk result (caps.new.caps
        ≡ with_cap caps.old.caps
        (fresh (root_key_spec decl.now number root.now) None root.now.sel root.now.object)) }
{
    caps.room(1, None)?;
    let key = root_key(decl, number, root);
    caps.insert(key, None, root.sel, root.object);
    Ok(())
}

// The key of a root or service of a VPE.
fn root_key(decl: &VpeDecl, number: u16, root: &Root) -> Key
    requires vpe { decl.now.vpe < VPES }
    requires pe { decl.now.pe < PES }
    requires number { number < NUMBERS }
    ensures { result ≡ root_key_spec decl.now number root.now }
{
    Key {
        pe: decl.pe,
        vpe: decl.vpe,
        kind: root.object.kind(),
        number,
    }
}

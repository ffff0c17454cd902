ghost use Rattle.std.specs.Prelude.{◌≡◌, ◌<◌, ◌≤◌, ◌+◌, true};
ghost use Rattle.sem_msg.specs.declared.state.Ask.TheVariants.{Delegate as DelegateAsk};
ghost use Rattle.sem_msg.specs.Lookups.{is_declared};
ghost use Rattle.sem_msg.specs.Lookups.{owner_of as owner_of_spec};
ghost use Rattle.sem_msg.specs.Outboxes.{HasSent};
ghost use Rattle.sem_vpe.specs.Telling.{CanTell};
ghost use Rattle.sem_machine.specs.Sides.{Side};
ghost use Rattle.sem_machine.specs.Steps.{step_of};
ghost use Rattle.sem_machine.specs.Stores.{IsNextFree};
ghost use Rattle.sem_machine.specs.Upcalls.{ask_decided};
ghost use Rattle.sem_delegate.specs.Delegating.{HasRoomFor, consenting};

use crate::consents::decide_here;
use crate::delegations::Delegation;
use crate::pendings::Pendings;
use crate::preparing::decide_elsewhere;
use sem_caps::Caps;
use sem_key::{Key, Object};
use sem_msg::{Outboxes, Outcome, Setup};
use sem_park::Park;
use sem_vpe::Vpes;

/// A VPE was asked to take a child of the capability `parent`, to stand at the selector `sel`, and
/// the ask was just taken out. If the delegator is of this kernel and no longer waits, the ask is
/// dropped. If the setup says so, it is denied. Otherwise, unless a test refuses it, the child is
/// installed at once, or, if the delegator is a VPE of another kernel, it is prepared and that
/// kernel is told.
pub fn delegate_upcall(
    setup: &Setup,
    kernel: u32,
    vpe: u16,
    parent: Key,
    object: Object,
    sel: u8,
    caps: &mut Caps,
    vpes: &mut Vpes,
    park: &mut Park,
    pendings: &mut Pendings,
    outs: &mut Outboxes,
) -> Outcome
    requires can { CanTell setup.now kernel vpe vpes.old outs.old }
    requires declared { is_declared setup.now vpe ≡ true }
    requires owner { owner_of_spec setup.now parent < setup.now.kernels }
    requires free { IsNextFree setup.now caps.old.caps vpes.old.rows vpe }
    requires child_room { HasRoomFor caps.old parent }
    requires caps_spare { 0 < caps.old.spare }
    requires pendings_spare { 0 < pendings.old.spare }
    ensures row { (s : Side) →
        step_of result (consenting caps.new vpes.new park.new pendings.new outs.new s)
        ≡ ask_decided setup.now kernel vpe (DelegateAsk parent object sel)
        (consenting caps.old vpes.old park.old pendings.old outs.old s) }
    ensures ours { vpes.new.ours ≡ vpes.old.ours }
    ensures left { HasSent setup.now outs.old outs.new }
    ensures caps_spare { caps.old.spare ≤ caps.new.spare + 1 }
    ensures pendings_spare { pendings.old.spare ≤ pendings.new.spare + 1 }
{
    let delegation = Delegation {
        vpe,
        parent,
        object,
        sel,
    };
    if setup.kernel_of(parent.vpe) == kernel {
        decide_here(setup, kernel, delegation, caps, vpes, park)
    } else {
        decide_elsewhere(setup, kernel, delegation, vpes, pendings, outs)
    }
}

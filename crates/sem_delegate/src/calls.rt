ghost use Rattle.std.specs.Prelude.{◌≡◌, ◌<◌, true, IfSome};
ghost use Rattle.sem_key.specs.declared.limits.TheConstants.{VPES};
ghost use Rattle.sem_key.specs.Capability.{Capability};
ghost use Rattle.sem_key.specs.ObjectRanges.{IsValidObject, object_kind};
ghost use Rattle.sem_msg.specs.Lookups.{is_declared};
ghost use Rattle.sem_msg.specs.Message.{IsDelegable};
ghost use Rattle.sem_msg.specs.Outboxes.{CanSend, HasSent};
ghost use Rattle.sem_vpe.specs.Telling.{CanAsk};
ghost use Rattle.sem_vpe.specs.VpeTable.{AreOurs};
ghost use Rattle.sem_machine.specs.Sides.{Side, no_side, own};
ghost use Rattle.sem_machine.specs.Steps.{step_of, unshown};
ghost use Rattle.sem_machine.specs.Calls.{delegate_row, offer_made};
ghost use Rattle.sem_machine.specs.Stores.{owning, with_caps_vpes_parks_outs, with_vpes_parks_outs};
ghost use Rattle.sem_delegate.specs.Delegating.{IsOfKind};

use crate::delegations::Delegation;
use crate::messages::request;
use crate::refusals::delegate_refusal;
use sem_caps::Caps;
use sem_msg::{Ask, Code, Outboxes, Outcome, Parked, Setup};
use sem_park::Park;
use sem_vpe::Vpes;

/// The call `delegate`: the VPE offers the capability at its selector `src` to another VPE, to
/// stand at that VPE's selector `dst`. The call waits, unless it is refused at once.
pub fn delegate_call(
    setup: &Setup,
    kernel: u32,
    vpe: u16,
    src: u8,
    other: u16,
    dst: u8,
    caps: &Caps,
    vpes: &mut Vpes,
    park: &mut Park,
    outs: &mut Outboxes,
) -> Outcome
    requires can { CanAsk setup.now kernel vpe vpes.old outs.old }
    requires valid { IfSome (own (owning caps.now.caps vpes.old.rows no_side) vpe src) IsOfKind }
    ensures row { (s : Side) →
        step_of result
        (with_caps_vpes_parks_outs caps.now.caps vpes.new.rows park.new outs.new.boxes s)
        ≡ delegate_row setup.now kernel
        (with_caps_vpes_parks_outs caps.now.caps vpes.old.rows park.old outs.old.boxes s) vpe src
        other dst }
    ensures ours { vpes.new.ours ≡ vpes.old.ours }
    ensures left { HasSent setup.now outs.old outs.new }
{
    // Shows the proof that the VPE has a place.
    let _ = setup.declared_kernel(vpe);
    if let Some(code) = delegate_refusal(setup, kernel, vpe, src, other, caps, vpes) {
        return Outcome::answered(code);
    }
    let Some(cap) = vpes.held_key(vpe, src).and_then(|key| caps.get(key)) else {
        return Outcome::answered(Code::NoCap);
    };
    let delegation = Delegation {
        vpe: other,
        parent: cap.key,
        object: cap.object,
        sel: dst,
    };
    make_offer(setup, kernel, vpe, delegation, vpes, park, outs);
    Outcome::nothing()
}

// The VPE waits; the other VPE is asked to take the capability.
fn make_offer(
    setup: &Setup,
    kernel: u32,
    vpe: u16,
    delegation: Delegation,
    vpes: &mut Vpes,
    park: &mut Park,
    outs: &mut Outboxes,
)
    requires home { AreOurs setup.now kernel vpes.old }
    requires vpe { vpe < VPES }
    requires asked { is_declared setup.now delegation.vpe ≡ true }
    requires object { IsValidObject delegation.object }
    requires kind { delegation.parent.kind ≡ object_kind delegation.object }
    requires delegable { IsDelegable delegation.parent.kind }
    requires sends { CanSend setup.now outs.old }
    ensures row { (p : Capability) (s : Side) → p.key ≡ delegation.parent →
        p.object ≡ delegation.object →
        unshown (with_vpes_parks_outs vpes.new.rows park.new outs.new.boxes s)
        ≡ offer_made setup.now kernel vpe delegation.vpe delegation.sel p
        (with_vpes_parks_outs vpes.old.rows park.old outs.old.boxes s) }
    ensures ours { vpes.new.ours ≡ vpes.old.ours }
    ensures left { HasSent setup.now outs.old outs.new }
{
    let Delegation {
        vpe: other,
        parent,
        object,
        sel,
    } = delegation;
    park.park(vpe, Parked::DelegateWait { parent });
    let owner = setup.declared_kernel(other);
    if owner == kernel {
        vpes.ask(
            other,
            Ask::Delegate {
                parent,
                object,
                sel,
            },
        );
    } else {
        outs.send(owner, request(parent, object, other, sel));
    }
}

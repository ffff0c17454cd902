ghost use Rattle.std.specs.Prelude.{◌≡◌, ◌<◌, ◌≤◌, ◌+◌, ◌++◌, true, None};
ghost use Rattle.sem_key.specs.CapList.{cap_of};
ghost use Rattle.sem_msg.specs.declared.entry.Consent.TheVariants.{Yes};
ghost use Rattle.sem_msg.specs.declared.state.Ask.TheVariants.{Delegate as DelegateAsk};
ghost use Rattle.sem_msg.specs.Lookups.{is_declared, kernel_of as kernel_of_spec};
ghost use Rattle.sem_vpe.specs.VpeTable.{IsOurs};
ghost use Rattle.sem_machine.specs.Sides.{Side, no_side};
ghost use Rattle.sem_machine.specs.Steps.{asking, first_code, step_of};
ghost use Rattle.sem_machine.specs.Calls.{destination_tests};
ghost use Rattle.sem_machine.specs.Stores.{IsNextFree, installing, with_vpes};
ghost use Rattle.sem_machine.specs.Upcalls.{ask_decided, delegate_here, parent_tests};
ghost use Rattle.sem_delegate.specs.Delegating.{HasRoomFor};

use crate::answers::end_waiting;
use crate::delegations::Delegation;
use crate::keys::draw_key;
use crate::refusals::consent_refusal;
use sem_caps::Caps;
use sem_msg::{Code, Consent, Outcome, Parked, Setup};
use sem_park::Park;
use sem_vpe::Vpes;

// The VPE decides on an offer of a VPE of the same kernel.
pub fn decide_here(
    setup: &Setup,
    kernel: u32,
    delegation: Delegation,
    caps: &mut Caps,
    vpes: &mut Vpes,
    park: &mut Park,
) -> Outcome
    requires here { kernel_of_spec setup.now delegation.parent.vpe ≡ kernel }
    requires declared { is_declared setup.now delegation.vpe ≡ true }
    requires ours { IsOurs vpes.old delegation.vpe }
    requires free { IsNextFree setup.now caps.old.caps vpes.old.rows delegation.vpe }
    requires child_room { HasRoomFor caps.old delegation.parent }
    requires spare { 0 < caps.old.spare }
    ensures row { (s : Side) →
        step_of result (installing caps.new.caps vpes.new.rows park.new s)
        ≡ ask_decided setup.now kernel delegation.vpe
        (DelegateAsk delegation.parent delegation.object delegation.sel)
        (installing caps.old.caps vpes.old.rows park.old s) }
    ensures ours { vpes.new.ours ≡ vpes.old.ours }
    ensures spare { caps.old.spare ≤ caps.new.spare + 1 }
{
    let Delegation {
        vpe,
        parent,
        sel,
        ..
    } = delegation;
    let asker = parent.vpe;
    if !park.is_delegate_wait(parent) {
        return Outcome::asked(asker, Consent::Dropped, None);
    }
    if setup.denies(vpe, asker) {
        end_waiting(parent, Code::Refused.number(), park);
        return Outcome::asked(asker, Consent::No, None);
    }
    if let Some(code) = consent_refusal(caps, vpes, vpe, parent, sel) {
        end_waiting(parent, code.number(), park);
        return Outcome::asked(asker, Consent::Yes, None);
    }
    take_child(setup, delegation, caps, vpes, park)
}

// The VPE takes a child of the capability of a VPE of the same kernel, whose delegate will succeed.
fn take_child(
    setup: &Setup,
    delegation: Delegation,
    caps: &mut Caps,
    vpes: &mut Vpes,
    park: &mut Park,
) -> Outcome
    requires declared { is_declared setup.now delegation.vpe ≡ true }
    requires ours { IsOurs vpes.old delegation.vpe }
    requires tests { first_code (parent_tests (cap_of caps.old.caps delegation.parent)
        ++ destination_tests (with_vpes vpes.old.rows no_side) delegation.vpe delegation.sel)
        ≡ None }
    requires free { IsNextFree setup.now caps.old.caps vpes.old.rows delegation.vpe }
    requires child_room { HasRoomFor caps.old delegation.parent }
    requires spare { 0 < caps.old.spare }
    ensures row { (s : Side) →
        step_of result (installing caps.new.caps vpes.new.rows park.new s)
        ≡ asking delegation.parent.vpe Yes
        (delegate_here setup.now delegation.vpe delegation.parent delegation.object delegation.sel
        (installing caps.old.caps vpes.old.rows park.old s)) }
    ensures ours { vpes.new.ours ≡ vpes.old.ours }
    ensures spare { caps.old.spare ≤ caps.new.spare + 1 }
{
    let Delegation {
        vpe,
        parent,
        object,
        sel,
    } = delegation;
    let key = draw_key(setup, vpe, parent.kind, vpes);
    caps.link(parent, key);
    caps.insert(key, Some(parent), sel, object);
    vpes.fill(vpe, sel, key);
    let asker = parent.vpe;
    park.park(
        asker,
        Parked::Ready {
            code: Code::Ok.number(),
        },
    );
    Outcome {
        asked: Some((asker, Consent::Yes)),
        grant: Some((parent, key)),
        cut: None,
        reply: None,
    }
}

ghost use Rattle.std.specs.Prelude.{◌≡◌, ◌≢◌, ◌<◌, ◌≤◌, ◌+◌, true, None};
ghost use Rattle.sem_msg.specs.declared.state.Ask.TheVariants.{Delegate as DelegateAsk};
ghost use Rattle.sem_msg.specs.Lookups.{is_declared, kernel_of as kernel_of_spec};
ghost use Rattle.sem_msg.specs.Lookups.{owner_of as owner_of_spec};
ghost use Rattle.sem_msg.specs.Outboxes.{CanSend, HasSent};
ghost use Rattle.sem_vpe.specs.VpeTable.{IsOurs};
ghost use Rattle.sem_machine.specs.Sides.{Side, no_side};
ghost use Rattle.sem_machine.specs.Steps.{first_code, step_of, unshown};
ghost use Rattle.sem_machine.specs.Calls.{destination_tests};
ghost use Rattle.sem_machine.specs.Stores.{with_vpes};
ghost use Rattle.sem_machine.specs.Upcalls.{ask_decided, delegate_prepared};
ghost use Rattle.sem_delegate.specs.Delegating.{preparing};

use crate::delegations::Delegation;
use crate::keys::draw_key;
use crate::messages::{prepared, refusal, tell_owner};
use crate::pendings::Pendings;
use sem_msg::{Code, Consent, Outboxes, Outcome, Pending, Setup};
use sem_vpe::Vpes;

// The VPE decides on an offer of a VPE of another kernel.
pub fn decide_elsewhere(
    setup: &Setup,
    kernel: u32,
    delegation: Delegation,
    vpes: &mut Vpes,
    pendings: &mut Pendings,
    outs: &mut Outboxes,
) -> Outcome
    requires other { kernel_of_spec setup.now delegation.parent.vpe ≢ kernel }
    requires declared { is_declared setup.now delegation.vpe ≡ true }
    requires ours { IsOurs vpes.old delegation.vpe }
    requires owner { owner_of_spec setup.now delegation.parent < setup.now.kernels }
    requires sends { CanSend setup.now outs.old }
    requires pendings_spare { 0 < pendings.old.spare }
    ensures row { (s : Side) →
        step_of result (preparing vpes.new pendings.new outs.new s)
        ≡ ask_decided setup.now kernel delegation.vpe
        (DelegateAsk delegation.parent delegation.object delegation.sel)
        (preparing vpes.old pendings.old outs.old s) }
    ensures ours { vpes.new.ours ≡ vpes.old.ours }
    ensures left { HasSent setup.now outs.old outs.new }
    ensures pendings_spare { pendings.old.spare ≤ pendings.new.spare + 1 }
{
    let Delegation {
        vpe,
        parent,
        sel,
        ..
    } = delegation;
    let asker = parent.vpe;
    if setup.denies(vpe, asker) {
        tell_owner(setup, parent, refusal(parent, Code::Refused), outs);
        return Outcome::asked(asker, Consent::No, None);
    }
    if let Some(code) = vpes.destination_refusal(vpe, sel) {
        tell_owner(setup, parent, refusal(parent, code), outs);
        return Outcome::asked(asker, Consent::Yes, None);
    }
    prepare(setup, delegation, vpes, pendings, outs);
    Outcome::asked(asker, Consent::Yes, None)
}

// The child is prepared, and the kernel of the delegator is told.
fn prepare(
    setup: &Setup,
    delegation: Delegation,
    vpes: &mut Vpes,
    pendings: &mut Pendings,
    outs: &mut Outboxes,
)
    requires declared { is_declared setup.now delegation.vpe ≡ true }
    requires ours { IsOurs vpes.old delegation.vpe }
    requires free { first_code (destination_tests (with_vpes vpes.old.rows no_side) delegation.vpe
        delegation.sel) ≡ None }
    requires owner { owner_of_spec setup.now delegation.parent < setup.now.kernels }
    requires sends { CanSend setup.now outs.old }
    requires pendings_spare { 0 < pendings.old.spare }
    ensures row { (s : Side) →
        unshown (preparing vpes.new pendings.new outs.new s)
        ≡ delegate_prepared setup.now delegation.vpe delegation.parent delegation.object
        delegation.sel (preparing vpes.old pendings.old outs.old s) }
    ensures ours { vpes.new.ours ≡ vpes.old.ours }
    ensures left { HasSent setup.now outs.old outs.new }
    ensures pendings_spare { pendings.old.spare ≤ pendings.new.spare + 1 }
{
    let Delegation {
        vpe,
        parent,
        object,
        sel,
    } = delegation;
    let key = draw_key(setup, vpe, parent.kind, vpes);
    let Ok(()) = vpes.promise(vpe, sel) else {
        unreachable!()
    };
    pendings.add(Pending {
        key,
        parent,
        object,
        sel,
    });
    tell_owner(setup, parent, prepared(parent, key), outs);
}

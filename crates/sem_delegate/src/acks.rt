ghost use Rattle.std.specs.Prelude.{◌≡◌, ℕ, ◌<◌, ◌≤◌, ◌+◌, None};
ghost use Rattle.sem_key.specs.CapList.{cap_of};
ghost use Rattle.sem_msg.specs.declared.message.Message.TheVariants.{Ack};
ghost use Rattle.sem_msg.specs.Lookups.{owner_of as owner_of_spec};
ghost use Rattle.sem_msg.specs.Outboxes.{CanSend, HasSent};
ghost use Rattle.sem_vpe.specs.Telling.{CanTell};
ghost use Rattle.sem_vpe.specs.VpeTable.{IsOurs};
ghost use Rattle.sem_machine.specs.Sides.{Side};
ghost use Rattle.sem_machine.specs.Handles.{handle_row};
ghost use Rattle.sem_delegate.specs.Delegating.{CanHold, acking, held_or_orphaned, keeping};
ghost use Rattle.sem_delegate.specs.PendingStore.{pending_of};

use crate::messages::{orphaned, tell_owner};
use crate::pendings::Pendings;
use sem_caps::Caps;
use sem_key::Key;
use sem_msg::{Outboxes, Pending, Setup};
use sem_vpe::Vpes;

/// An accepted delegation is acknowledged, so it is no longer pending. With yes the capability is
/// installed, or, if its VPE is dead, the kernel of the parent is told; with no the promised
/// selector is free.
#[tactic(auto, unfolding(sem_machine::specs::Handles::handle_row))]
pub fn ack(
    setup: &Setup,
    kernel: u32,
    key: Key,
    yes: bool,
    caps: &mut Caps,
    vpes: &mut Vpes,
    pendings: &mut Pendings,
    outs: &mut Outboxes,
)
    requires can { CanTell setup.now kernel key.vpe vpes.old outs.old }
    requires holds { CanHold setup.now caps.old key (pending_of pendings.old.pendings key) }
    requires caps_spare { 0 < caps.old.spare }
    ensures row { (from : ℕ) (s : Side) →
        acking caps.new vpes.new pendings.new outs.new s
        ≡ handle_row setup.now kernel (acking caps.old vpes.old pendings.old outs.old s) from
        (Ack key yes) }
    ensures ours { vpes.new.ours ≡ vpes.old.ours }
    ensures left { HasSent setup.now outs.old outs.new }
    ensures caps_spare { caps.old.spare ≤ caps.new.spare + 1 }
    ensures pendings_spare { pendings.old.spare ≤ pendings.new.spare }
{
    let pending = pendings.take(key);
    let Some(pending) = &pending else {
        return;
    };
    if yes {
        hold(setup, key, pending, caps, vpes, outs);
    } else {
        let vpe = key.vpe;
        vpes.release(vpe, pending.sel);
    }
}

// The accepted delegation holds: the capability is installed, or, if its VPE is dead, is an orphan.
fn hold(
    setup: &Setup,
    key: Key,
    pending: &Pending,
    caps: &mut Caps,
    vpes: &mut Vpes,
    outs: &mut Outboxes,
)
    requires ours { IsOurs vpes.old key.vpe }
    requires absent { cap_of caps.old.caps key ≡ None }
    requires owner { owner_of_spec setup.now pending.now.parent < setup.now.kernels }
    requires sends { CanSend setup.now outs.old }
    requires caps_spare { 0 < caps.old.spare }
    ensures row { (s : Side) →
        keeping caps.new vpes.new outs.new s
        ≡ held_or_orphaned setup.now key pending.now (keeping caps.old vpes.old outs.old s) }
    ensures ours { vpes.new.ours ≡ vpes.old.ours }
    ensures left { HasSent setup.now outs.old outs.new }
    ensures caps_spare { caps.old.spare ≤ caps.new.spare + 1 }
{
    let (vpe, parent) = (key.vpe, pending.parent);
    if vpes.alive(vpe) {
        caps.insert(key, Some(parent), pending.sel, pending.object);
        vpes.fill(vpe, pending.sel, key);
    } else {
        tell_owner(setup, parent, orphaned(parent, key), outs);
    }
}

ghost use Rattle.std.specs.Prelude.{◌≡◌, ◌≢◌, ℕ, ◌<◌, true};
ghost use Rattle.sem_msg.specs.declared.message.Message.TheVariants.{DelegateNo, DelegatePrepared};
ghost use Rattle.sem_msg.specs.declared.message.Message.TheVariants.{DelegateReq};
ghost use Rattle.sem_msg.specs.Lookups.{kernel_of as kernel_of_spec, owner_of as owner_of_spec};
ghost use Rattle.sem_msg.specs.Outboxes.{HasSent};
ghost use Rattle.sem_msg.specs.ParkedStates.{state_of};
ghost use Rattle.sem_vpe.specs.Telling.{CanTell};
ghost use Rattle.sem_vpe.specs.VpeTable.{AreOurs};
ghost use Rattle.sem_machine.specs.Asks.{call_refused, is_delegate_wait};
ghost use Rattle.sem_machine.specs.Sides.{Side};
ghost use Rattle.sem_machine.specs.Handles.{handle_row};
ghost use Rattle.sem_machine.specs.Stores.{with_outs, with_parks, with_vpes, with_vpes_parks_outs};
ghost use Rattle.sem_delegate.specs.Delegating.{IsAwaited};

use crate::messages::{acknowledgement, refusal, tell_owner};
use sem_key::{Key, Object};
use sem_msg::{Ask, Code, Outboxes, Parked, Setup};
use sem_park::Park;
use sem_vpe::Vpes;

/// A request from another kernel: the VPE is asked to take the capability, or, if it is dead, the
/// kernel of the delegator is told.
#[tactic(auto, unfolding(sem_machine::specs::Handles::handle_row))]
pub fn delegate_request(
    setup: &Setup,
    kernel: u32,
    parent: Key,
    object: Object,
    vpe: u16,
    sel: u8,
    vpes: &mut Vpes,
    outs: &mut Outboxes,
)
    requires can { CanTell setup.now kernel vpe vpes.old outs.old }
    requires other { kernel_of_spec setup.now parent.vpe ≢ kernel }
    requires owner { owner_of_spec setup.now parent < setup.now.kernels }
    ensures row { (from : ℕ) (s : Side) →
        with_vpes vpes.new.rows (with_outs outs.new.boxes s)
        ≡ handle_row setup.now kernel (with_vpes vpes.old.rows (with_outs outs.old.boxes s)) from
        (DelegateReq parent object vpe sel) }
    ensures ours { vpes.new.ours ≡ vpes.old.ours }
    ensures left { HasSent setup.now outs.old outs.new }
{
    if vpes.alive(vpe) {
        vpes.ask(
            vpe,
            Ask::Delegate {
                parent,
                object,
                sel,
            },
        );
    } else {
        tell_owner(setup, parent, refusal(parent, Code::Dead), outs);
    }
}

/// An offer was accepted: the delegate is ready to grant the child, or, if its VPE is dead, the
/// kernel of the child is told that the delegation does not hold.
#[tactic(auto, unfolding(sem_machine::specs::Handles::handle_row))]
pub fn delegate_prepared(
    setup: &Setup,
    kernel: u32,
    parent: Key,
    key: Key,
    vpes: &Vpes,
    park: &mut Park,
    outs: &mut Outboxes,
)
    requires can { CanTell setup.now kernel parent.vpe vpes.now outs.old }
    requires owner { owner_of_spec setup.now key < setup.now.kernels }
    ensures row { (from : ℕ) (s : Side) →
        with_vpes_parks_outs vpes.now.rows park.new outs.new.boxes s
        ≡ handle_row setup.now kernel (with_vpes_parks_outs vpes.now.rows park.old outs.old.boxes s)
        from (DelegatePrepared parent key) }
    ensures left { HasSent setup.now outs.old outs.new }
{
    if vpes.alive(parent.vpe) {
        park.park(parent.vpe, Parked::DelegateReady { parent, key });
    } else {
        tell_owner(setup, key, acknowledgement(key, false), outs);
    }
}

/// An offer was refused: the code will answer the delegate.
#[tactic(auto, unfolding(sem_machine::specs::Handles::handle_row))]
pub fn delegate_refused(
    setup: &Setup,
    kernel: u32,
    parent: Key,
    code: u8,
    vpes: &Vpes,
    park: &mut Park,
)
    requires home { AreOurs setup.now kernel vpes.now }
    requires vpe { kernel_of_spec setup.now parent.vpe ≡ kernel }
    requires waits { IsAwaited vpes.now park.old parent }
    ensures row { (from : ℕ) (s : Side) →
        with_vpes vpes.now.rows (with_parks park.new s)
        ≡ handle_row setup.now kernel (with_vpes vpes.now.rows (with_parks park.old s)) from
        (DelegateNo parent code) }
{
    if vpes.alive(parent.vpe) {
        end_waiting(parent, code, park);
    }
}

// The delegate of the capability no longer waits; the code will answer it.
pub fn end_waiting(parent: Key, code: u8, park: &mut Park)
    requires { is_delegate_wait parent (state_of park.old parent.vpe) ≡ true }
    ensures { (s : Side) →
        with_parks park.new s ≡ call_refused code parent.vpe (with_parks park.old s) }
{
    park.park(parent.vpe, Parked::Ready { code });
}

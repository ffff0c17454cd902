ghost use Rattle.std.specs.Prelude.{◌≡◌, ◌<◌};
ghost use Rattle.sem_key.specs.declared.limits.TheConstants.{VPES};
ghost use Rattle.sem_key.specs.CapList.{cap_of};
ghost use Rattle.sem_msg.specs.Lookups.{owner_of as owner_of_spec};
ghost use Rattle.sem_msg.specs.Outboxes.{CanSend, HasSent};
ghost use Rattle.sem_msg.specs.ParkedStates.{state_of};
ghost use Rattle.sem_msg.specs.Setup.{Setup as SetupOf};
ghost use Rattle.sem_machine.specs.Sides.{Side};
ghost use Rattle.sem_machine.specs.Steps.{step_of};
ghost use Rattle.sem_machine.specs.Resumes.{delegate_resumed, resume_row};
ghost use Rattle.sem_machine.specs.Stores.{with_caps, with_outs, with_parks};
ghost use Rattle.sem_delegate.specs.Delegating.{CanGrant, HasCode, HasRoomFor, resuming};

use crate::messages::{acknowledgement, tell_owner};
use crate::refusals::parent_refusal;
use sem_caps::Caps;
use sem_key::Key;
use sem_msg::{Code, Outboxes, Outcome, Parked, Setup};
use sem_park::Park;

/// A delegate with an answer ends: the child is granted, or, if the parent is being revoked or is
/// gone, the call is refused; the kernel of the child is told.
#[tactic(auto, unfolding(sem_machine::specs::Resumes::resume_row))]
pub fn delegate_resume(
    setup: &Setup,
    vpe: u16,
    caps: &mut Caps,
    park: &mut Park,
    outs: &mut Outboxes,
) -> Outcome
    requires vpe { vpe < VPES }
    requires waits { CanGrant setup.now caps.old (state_of park.old vpe) }
    requires sends { CanSend setup.now outs.old }
    ensures row { (s : Side) →
        step_of result (resuming caps.new park.new outs.new s)
        ≡ resume_row setup.now (resuming caps.old park.old outs.old s) vpe }
    ensures left { HasSent setup.now outs.old outs.new }
    ensures caps_spare { caps.new.spare ≡ caps.old.spare }
{
    let state = park.state(vpe);
    park.clear(vpe);
    let Some(Parked::DelegateReady { parent, key }) = &state else {
        unreachable!()
    };
    grant(setup, *parent, *key, caps, outs)
}

// The child is granted, unless the parent is marked or not held; its kernel is told.
fn grant(setup: &Setup, parent: Key, key: Key, caps: &mut Caps, outs: &mut Outboxes) -> Outcome
    requires room { HasRoomFor caps.old parent }
    requires owner { owner_of_spec setup.now key < setup.now.kernels }
    requires sends { CanSend setup.now outs.old }
    ensures row { (s : Side) →
        step_of result (with_caps caps.new.caps (with_outs outs.new.boxes s))
        ≡ delegate_resumed setup.now parent key (cap_of caps.old.caps parent)
        (with_caps caps.old.caps (with_outs outs.old.boxes s)) }
    ensures left { HasSent setup.now outs.old outs.new }
    ensures caps_spare { caps.new.spare ≡ caps.old.spare }
{
    if let Some(code) = parent_refusal(caps, parent) {
        tell_owner(setup, key, acknowledgement(key, false), outs);
        return Outcome::answered(code);
    }
    caps.link(parent, key);
    tell_owner(setup, key, acknowledgement(key, true), outs);
    Outcome {
        asked: None,
        grant: Some((parent, key)),
        cut: None,
        reply: Some(Code::Ok.number()),
    }
}

/// A call that has its code ends, and the code answers it.
#[tactic(auto, unfolding(sem_machine::specs::Resumes::resume_row))]
pub fn ready_resume(vpe: u16, park: &mut Park) -> Outcome
    requires vpe { vpe < VPES }
    requires ready { HasCode (state_of park.old vpe) }
    ensures row { (T : SetupOf) (s : Side) →
        step_of result (with_parks park.new s)
        ≡ resume_row T (with_parks park.old s) vpe }
{
    let state = park.state(vpe);
    park.clear(vpe);
    let Some(Parked::Ready { code }) = &state else {
        unreachable!()
    };
    Outcome {
        asked: None,
        grant: None,
        cut: None,
        reply: Some(*code),
    }
}

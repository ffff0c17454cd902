ghost use Rattle.std.specs.Prelude.{◌≡◌, ◌<◌, ◌≤◌, ◌+◌, Some, None};
ghost use Rattle.sem_key.specs.declared.limits.TheConstants.{VPES};
ghost use Rattle.sem_msg.specs.ParkedStates.{state_of};
ghost use Rattle.sem_msg.specs.Setup.{Setup as SetupOf};
ghost use Rattle.sem_vpe.specs.VpeTable.{IsOurs};
ghost use Rattle.sem_machine.specs.Sides.{Side, installed};
ghost use Rattle.sem_machine.specs.Steps.{step_of};
ghost use Rattle.sem_machine.specs.Stores.{installing, with_caps, with_vpes};
ghost use Rattle.sem_key.specs.CapList.{cap_of};
ghost use Rattle.sem_machine.specs.Resumes.{resume_row};
ghost use Rattle.sem_obtain.specs.Asking.{CanEnd};

use sem_caps::Caps;
use sem_key::{Key, Object};
use sem_msg::{Code, Outcome, Parked};
use sem_park::Park;
use sem_vpe::Vpes;

/// An asking call with an answer ends: the capability is installed, or, if it was revoked
/// meanwhile, the call is answered that it is gone.
#[tactic(auto, unfolding(sem_machine::specs::Resumes::resume_row))]
pub fn obtain_resume(vpe: u16, caps: &mut Caps, vpes: &mut Vpes, park: &mut Park) -> Outcome
    requires vpe { vpe < VPES }
    requires ours { IsOurs vpes.old vpe }
    requires waits { CanEnd caps.old vpe (state_of park.old vpe) }
    requires spare { 0 < caps.old.spare }
    ensures row { (T : SetupOf) (s : Side) →
        step_of result (installing caps.new.caps vpes.new.rows park.new s)
        ≡ resume_row T (installing caps.old.caps vpes.old.rows park.old s) vpe }
    ensures ours { vpes.new.ours ≡ vpes.old.ours }
    ensures spare { caps.old.spare ≤ caps.new.spare + 1 }
{
    let state = park.state(vpe);
    park.clear(vpe);
    let Some(
        Parked::ObtainReady {
            key,
            parent,
            object,
            sel,
        },
    ) = &state
    else {
        return Outcome::answered(Code::Gone);
    };
    install(*key, *parent, *object, *sel, caps, vpes);
    Outcome::answered(Code::Ok)
}

// Lets the selector of its VPE hold the capability.
pub fn install(key: Key, parent: Key, object: Object, sel: u8, caps: &mut Caps, vpes: &mut Vpes)
    requires ours { IsOurs vpes.old key.vpe }
    requires absent { cap_of caps.old.caps key ≡ None }
    requires spare { 0 < caps.old.spare }
    ensures row { (s : Side) →
        with_caps caps.new.caps (with_vpes vpes.new.rows s)
        ≡ installed key (Some parent) sel object
        (with_caps caps.old.caps (with_vpes vpes.old.rows s)) }
    ensures ours { vpes.new.ours ≡ vpes.old.ours }
    ensures spare { caps.old.spare ≤ caps.new.spare + 1 }
{
    caps.insert(key, Some(parent), sel, object);
    let vpe = key.vpe;
    vpes.fill(vpe, sel, key);
}

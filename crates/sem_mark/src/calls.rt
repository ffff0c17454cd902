ghost use Rattle.std.specs.Prelude.{◌≡◌, ◌<◌, true, false, IfSome, IsSome};
ghost use Rattle.std.specs.Option.{option_and_then};
ghost use Rattle.sem_key.specs.declared.limits.TheConstants.{VPES};
ghost use Rattle.sem_msg.specs.declared.state.Parked.TheVariants.{RevokeWait};
ghost use Rattle.sem_msg.specs.JobRows.{if_done, job_of};
ghost use Rattle.sem_msg.specs.ParkedStates.{parked_as};
ghost use Rattle.sem_machine.specs.Sides.{Side, no_side, own};
ghost use Rattle.sem_machine.specs.Steps.{step_of};
ghost use Rattle.sem_machine.specs.Calls.{clear_row, revoke_row};
ghost use Rattle.sem_machine.specs.Revokes.{finished};
ghost use Rattle.sem_machine.specs.Stores.{owning};
ghost use Rattle.sem_mark.specs.Marking.{CanBegin, HasBegun, HasRoomLeft, revoking};

use crate::opening::{NewJob, done_job, open_job};
use crate::owned::own_refusal;
use sem_caps::Caps;
use sem_dtu::Dtus;
use sem_jobs::{Jobs, Scratch};
use sem_msg::{Code, Outboxes, Outcome, Parked, Setup};
use sem_park::Park;
use sem_vpe::Vpes;

/// The call `revoke`: the VPE revokes the capability at its selector, and waits, unless it is
/// refused at once. If no job has marked the capability, a job begins but does not finish; its id
/// is returned if it is to finish now. If a job has marked it, the VPE waits for that job.
pub fn revoke_call(
    setup: &Setup,
    kernel: u32,
    vpe: u16,
    sel: u8,
    caps: &mut Caps,
    vpes: &Vpes,
    dtus: &mut Dtus,
    jobs: &mut Jobs,
    park: &mut Park,
    outs: &mut Outboxes,
    scratch: &mut Scratch,
) -> (Outcome, Option<u32>)
    requires can { CanBegin setup.now kernel vpe caps.old vpes.now jobs.old outs.old scratch.old }
    requires marker { IfSome (own (owning caps.old.caps vpes.now.rows no_side) vpe sel)
        (λ c. IfSome c.mark (λ j. IsSome (job_of jobs.old.jobs j))) }
    ensures row { (s : Side) → step_of result.0 (finished setup.now kernel result.1
        (revoking caps.new vpes.now dtus.new jobs.new park.new outs.new s))
        ≡ revoke_row setup.now kernel
        (revoking caps.old vpes.now dtus.old jobs.old park.old outs.old s) vpe sel }
    ensures begun { HasBegun setup.now kernel vpe false
        (own (owning caps.old.caps vpes.now.rows no_side) vpe sel) jobs.old jobs.new
        (revoking caps.old vpes.now dtus.old jobs.old park.old outs.old)
        (revoking caps.new vpes.now dtus.new jobs.new park.new outs.new) result.1 }
    ensures left { HasRoomLeft setup.now caps.old jobs.old outs.old scratch.old
        caps.new jobs.new outs.new scratch.new }
    ensures dtus { dtus.new.ours ≡ dtus.old.ours }
{
    // Shows the proof that the VPE has a place.
    let _ = vpes.alive(vpe);
    let Some(cap) = vpes.held_key(vpe, sel).and_then(|key| caps.get(key)) else {
        return (Outcome::answered(Code::NoCap), None);
    };
    let key = cap.key;
    if let Some(job) = cap.mark {
        jobs.wait(job, vpe);
        park.park(vpe, Parked::RevokeWait { job });
        return (Outcome::cut(key), None);
    }
    let wanted = NewJob {
        kernel,
        root: key,
        up: None,
        waiter: Some(vpe),
        keep: false,
    };
    let begun = open_job(setup, wanted, caps, dtus, jobs, outs, scratch);
    (Outcome::cut(key), wait_for(begun, vpe, jobs, park))
}

/// The call `clear`: the VPE revokes everything made from the capability at its selector, keeps the
/// capability, and waits, unless it is refused at once. A job begins but does not finish; its id is
/// returned if it is to finish now.
pub fn clear_call(
    setup: &Setup,
    kernel: u32,
    vpe: u16,
    sel: u8,
    caps: &mut Caps,
    vpes: &Vpes,
    dtus: &mut Dtus,
    jobs: &mut Jobs,
    park: &mut Park,
    outs: &mut Outboxes,
    scratch: &mut Scratch,
) -> (Outcome, Option<u32>)
    requires { CanBegin setup.now kernel vpe caps.old vpes.now jobs.old outs.old scratch.old }
    ensures row { (s : Side) → step_of result.0 (finished setup.now kernel result.1
        (revoking caps.new vpes.now dtus.new jobs.new park.new outs.new s))
        ≡ clear_row setup.now kernel
        (revoking caps.old vpes.now dtus.old jobs.old park.old outs.old s) vpe sel }
    ensures begun { HasBegun setup.now kernel vpe true
        (own (owning caps.old.caps vpes.now.rows no_side) vpe sel) jobs.old jobs.new
        (revoking caps.old vpes.now dtus.old jobs.old park.old outs.old)
        (revoking caps.new vpes.now dtus.new jobs.new park.new outs.new) result.1 }
    ensures left { HasRoomLeft setup.now caps.old jobs.old outs.old scratch.old
        caps.new jobs.new outs.new scratch.new }
    ensures dtus { dtus.new.ours ≡ dtus.old.ours }
{
    // Shows the proof that the VPE has a place.
    let _ = vpes.alive(vpe);
    if let Some(code) = own_refusal(caps, vpes, vpe, sel) {
        return (Outcome::answered(code), None);
    }
    let Some(cap) = vpes.held_key(vpe, sel).and_then(|key| caps.get(key)) else {
        return (Outcome::answered(Code::NoCap), None);
    };
    let key = cap.key;
    let wanted = NewJob {
        kernel,
        root: key,
        up: None,
        waiter: Some(vpe),
        keep: true,
    };
    let begun = open_job(setup, wanted, caps, dtus, jobs, outs, scratch);
    (Outcome::cut(key), wait_for(begun, vpe, jobs, park))
}

// The VPE waits for the job that it began. Returns the id of the job if it is to finish now.
fn wait_for(begun: u32, vpe: u16, jobs: &Jobs, park: &mut Park) -> Option<u32>
    requires { vpe < VPES }
    ensures park { park.new ≡ parked_as park.old vpe (RevokeWait begun) }
    ensures done { option_and_then (job_of jobs.now.jobs) result
        ≡ if_done (job_of jobs.now.jobs begun) }
    ensures there { IfSome result (λ j. IsSome (job_of jobs.now.jobs j)) }
    ensures same { IfSome result (λ j. (j ≡ begun)) }
{
    park.park(vpe, Parked::RevokeWait { job: begun });
    done_job(jobs, begun)
}

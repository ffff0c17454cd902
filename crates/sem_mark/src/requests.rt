ghost use Rattle.std.specs.Prelude.{◌≡◌, ◌+◌, ◌<◌, ◌≤◌, true, false, [], None, Some, All, IfSome};
ghost use Rattle.std.specs.Prelude.{IsSome, IsSomeAnd, vec_capacity};
ghost use Rattle.sem_key.specs.CapList.{cap_of, link_count};
ghost use Rattle.sem_msg.specs.declared.message.Message.TheVariants.{RevokeReq};
ghost use Rattle.sem_msg.specs.declared.state.Up.TheVariants.{Remote};
ghost use Rattle.sem_msg.specs.JobRows.{job_of};
ghost use Rattle.sem_msg.specs.Lookups.{kernel_of as kernel_of_spec};
ghost use Rattle.sem_msg.specs.Outboxes.{HasBoxes};
ghost use Rattle.sem_msg.specs.ParkedStates.{is_ready_with, state_of};
ghost use Rattle.sem_vpe.specs.VpeTable.{AreOurs, IsOurs};
ghost use Rattle.sem_machine.specs.Sides.{Side};
ghost use Rattle.sem_machine.specs.Handles.{handle_row};
ghost use Rattle.sem_machine.specs.Revokes.{finished, obtain_cancelled, opened};
ghost use Rattle.sem_machine.specs.Stores.{with_parks, with_vpes};
ghost use Rattle.sem_mark.specs.Marking.{HasSpace, LeadsHome, revoking};

use crate::begin::begin_revoke;
use crate::messages::done;
use sem_caps::Caps;
use sem_dtu::Dtus;
use sem_jobs::{Jobs, Scratch};
use sem_key::Key;
use sem_msg::{Outboxes, Setup, Up};
use sem_park::Park;
use sem_vpe::Vpes;

/// A request of the kernel `from` to revoke the key, for its job. If the key is held and no job has
/// marked it, a job begins but does not finish; its id is returned if it is to finish now. If a job
/// has marked it, the other kernel waits for that job. If the key is not held, the call that was
/// about to install it is cancelled, and the other kernel is told at once.
pub fn revoke_request(
    setup: &Setup,
    kernel: u32,
    from: u32,
    key: Key,
    job: u32,
    caps: &mut Caps,
    vpes: &mut Vpes,
    dtus: &mut Dtus,
    jobs: &mut Jobs,
    park: &mut Park,
    outs: &mut Outboxes,
    scratch: &mut Scratch,
) -> Option<u32>
    requires home { AreOurs setup.now kernel vpes.old }
    requires from { from < setup.now.kernels }
    requires ready { is_ready_with key (state_of park.old key.vpe) ≡ true →
        kernel_of_spec setup.now key.vpe ≡ kernel }
    requires job { 0 < jobs.old.spare }
    requires ids { jobs.old.next < 4294967295 }
    requires boxes { HasBoxes setup.now outs.old }
    requires owners { All (LeadsHome setup.now) caps.old.caps }
    requires spare { link_count caps.old.caps < outs.old.spare }
    requires space { HasSpace caps.old scratch.old }
    ensures row { (s : Side) →
        finished setup.now kernel result
        (revoking caps.new vpes.new dtus.new jobs.new park.new outs.new s)
        ≡ handle_row setup.now kernel
        (revoking caps.old vpes.old dtus.old jobs.old park.old outs.old s) from
        (RevokeReq key job) }
    ensures opened { IsSome result → (s : Side) →
        revoking caps.new vpes.new dtus.new jobs.new park.new outs.new s
        ≡ opened setup.now kernel key (Some (Remote from job)) [] false
        (revoking caps.old vpes.old dtus.old jobs.old park.old outs.old s) }
    ensures unmarked { IsSome result → IsSomeAnd (cap_of caps.old.caps key) (λ c. c.mark ≡ None) }
    ensures there { IfSome result (λ j. IsSome (job_of jobs.new.jobs j)) }
    ensures done { IfSome result (λ j. (j ≡ jobs.old.next)) }
    ensures ours { vpes.new.ours ≡ vpes.old.ours }
    ensures boxes { HasBoxes setup.now outs.new }
    ensures spare { outs.old.spare ≤ outs.new.spare + (link_count caps.old.caps + 1) }
    ensures job_spare { jobs.old.spare ≤ jobs.new.spare + 1 }
    ensures caps_spare { caps.new.spare ≡ caps.old.spare }
    ensures dtus { dtus.new.ours ≡ dtus.old.ours }
    ensures space { HasSpace caps.new scratch.new }
    ensures gone { vec_capacity scratch.new.gone ≡ vec_capacity scratch.old.gone }
{
    let up = Up::Remote { kernel: from, job };
    let Some(cap) = caps.get(key) else {
        cancel_obtain(key, vpes, park);
        outs.send(from, done(job));
        return None;
    };
    if let Some(marker) = cap.mark {
        jobs.set_up(marker, up);
        return None;
    }
    begin_revoke(
        setup,
        kernel,
        key,
        Some(up),
        None,
        caps,
        dtus,
        jobs,
        outs,
        scratch,
    )
}

// The call that was about to install the key no longer will, and the selector promised to it is
// free.
fn cancel_obtain(key: Key, vpes: &mut Vpes, park: &mut Park)
    requires ready { is_ready_with key (state_of park.old key.vpe) ≡ true →
        IsOurs vpes.old key.vpe }
    ensures row { (s : Side) →
        with_vpes vpes.new.rows (with_parks park.new s)
        ≡ obtain_cancelled key (with_vpes vpes.old.rows (with_parks park.old s)) }
    ensures ours { vpes.new.ours ≡ vpes.old.ours }
{
    if let Some(sel) = park.cancel(key) {
        vpes.release(key.vpe, sel);
    }
}

ghost use Rattle.std.specs.Prelude.{◌≡◌, ◌+◌, ◌<◌, ◌≤◌, false, All, IfSome, IsSome, length};
ghost use Rattle.std.specs.Prelude.{vec_capacity};
ghost use Rattle.std.specs.Option.{option_and_then};
ghost use Rattle.sem_key.specs.declared.limits.TheConstants.{VPES};
ghost use Rattle.sem_key.specs.Region.{children_of, region};
ghost use Rattle.sem_msg.specs.JobRows.{if_done, job_of, waiters_of};
ghost use Rattle.sem_msg.specs.Outboxes.{HasBoxes};
ghost use Rattle.sem_machine.specs.Sides.{Side};
ghost use Rattle.sem_machine.specs.Revokes.{begin, finished, opened};
ghost use Rattle.sem_mark.specs.Marking.{beginning, HasSpace, LeadsHome};

use crate::opening::{NewJob, done_job, open_job};
use sem_caps::Caps;
use sem_dtu::Dtus;
use sem_jobs::{Jobs, Scratch};
use sem_key::Key;
use sem_msg::{Outboxes, Setup, Up};

/// Begins a job for the root, with the job and the VPE that wait for it, if any, but does not
/// finish it. Returns its id if it is to finish now.
pub fn begin_revoke(
    setup: &Setup,
    kernel: u32,
    root: Key,
    up: Option<Up>,
    waiter: Option<u16>,
    caps: &mut Caps,
    dtus: &mut Dtus,
    jobs: &mut Jobs,
    outs: &mut Outboxes,
    scratch: &mut Scratch,
) -> Option<u32>
    requires waiter { IfSome waiter (λ v. v < VPES) }
    requires job { 0 < jobs.old.spare }
    requires ids { jobs.old.next < 4294967295 }
    requires boxes { HasBoxes setup.now outs.old }
    requires owners { All (LeadsHome setup.now) caps.old.caps }
    requires spare { length (children_of caps.old.caps (region caps.old.caps root))
        ≤ outs.old.spare }
    requires space { HasSpace caps.old scratch.old }
    ensures row { (s : Side) →
        finished setup.now kernel result (beginning caps.new dtus.new jobs.new outs.new s)
        ≡ begin setup.now kernel root up (waiters_of waiter) false
        (beginning caps.old dtus.old jobs.old outs.old s) }
    ensures opened { (s : Side) →
        beginning caps.new dtus.new jobs.new outs.new s
        ≡ opened setup.now kernel root up (waiters_of waiter) false
        (beginning caps.old dtus.old jobs.old outs.old s) }
    ensures done { option_and_then (job_of jobs.new.jobs) result
        ≡ if_done (job_of jobs.new.jobs jobs.old.next) }
    ensures same { IfSome result (λ j. (j ≡ jobs.old.next)) }
    ensures there { IfSome result (λ j. IsSome (job_of jobs.new.jobs j)) }
    ensures boxes { HasBoxes setup.now outs.new }
    ensures spare { outs.old.spare
        ≤ outs.new.spare + length (children_of caps.old.caps (region caps.old.caps root)) }
    ensures job_spare { jobs.old.spare ≤ jobs.new.spare + 1 }
    ensures caps_spare { caps.new.spare ≡ caps.old.spare }
    ensures dtus { dtus.new.ours ≡ dtus.old.ours }
    ensures space { HasSpace caps.new scratch.new }
    ensures gone { vec_capacity scratch.new.gone ≡ vec_capacity scratch.old.gone }
{
    let wanted = NewJob {
        kernel,
        root,
        up,
        waiter,
        keep: false,
    };
    let job = open_job(setup, wanted, caps, dtus, jobs, outs, scratch);
    done_job(jobs, job)
}

ghost use Rattle.std.specs.Prelude.{◌≡◌, ℕ, ◌+◌, ◌<◌, ◌≤◌, true, None, All, IfSome, IsSome, length};
ghost use Rattle.std.specs.Prelude.{vec_capacity};
ghost use Rattle.std.specs.Option.{option_and_then};
ghost use Rattle.sem_key.specs.declared.limits.TheConstants.{VPES};
ghost use Rattle.sem_key.specs.CapList.{cap_of};
ghost use Rattle.sem_key.specs.Lists.{in_turn};
ghost use Rattle.sem_key.specs.Region.{children_of, region};
ghost use Rattle.sem_msg.specs.JobRows.{count_raised, if_done, job_of, job_opened, waiters_of};
ghost use Rattle.sem_msg.specs.JobRows.{with_up};
ghost use Rattle.sem_msg.specs.declared.state.Up.TheVariants.{Local};
ghost use Rattle.sem_msg.specs.Outboxes.{HasBoxes};
ghost use Rattle.sem_machine.specs.Sides.{Side};
ghost use Rattle.sem_machine.specs.Revokes.{HasOwner, opened, other_marker as other_marker_spec};
ghost use Rattle.sem_machine.specs.Revokes.{request_or_adopt as request_or_adopt_spec};
ghost use Rattle.sem_machine.specs.Stores.{with_caps, with_jobs, with_outs};
ghost use Rattle.sem_mark.specs.Marking.{beginning, HasSpace, LeadsHome};
ghost use Rattle.sem_mark.specs.Walks.{HasCount};

use crate::messages::request;
use crate::region::mark_region;
use sem_caps::Caps;
use sem_dtu::Dtus;
use sem_jobs::{Jobs, Scratch};
use sem_key::Key;
use sem_msg::{Outboxes, Setup, Up};

/// A job to be opened at a kernel: its root, the job and the VPE that wait for it, if any, and
/// whether it keeps its root.
#[derive(Clone, Copy, Debug)]
pub(crate) struct NewJob {
    pub kernel: u32,
    pub root: Key,
    pub up: Option<Up>,
    pub waiter: Option<u16>,
    pub keep: bool,
}

// Opens the job, and returns its id. The region of its root is marked and unbound, and each child
// is requested or adopted.
pub(crate) fn open_job(
    setup: &Setup,
    wanted: NewJob,
    caps: &mut Caps,
    dtus: &mut Dtus,
    jobs: &mut Jobs,
    outs: &mut Outboxes,
    scratch: &mut Scratch,
) -> u32
    requires waiter { IfSome wanted.waiter (λ v. v < VPES) }
    requires keep { wanted.keep ≡ true → wanted.up ≡ None }
    requires job { 0 < jobs.old.spare }
    requires ids { jobs.old.next < 4294967295 }
    requires boxes { HasBoxes setup.now outs.old }
    requires owners { All (LeadsHome setup.now) caps.old.caps }
    requires spare { length (children_of caps.old.caps (region caps.old.caps wanted.root))
        ≤ outs.old.spare }
    requires space { HasSpace caps.old scratch.old }
    ensures id { result ≡ jobs.old.next }
    ensures opened { (s : Side) →
        beginning caps.new dtus.new jobs.new outs.new s
        ≡ opened setup.now wanted.kernel wanted.root wanted.up (waiters_of wanted.waiter)
        wanted.keep (beginning caps.old dtus.old jobs.old outs.old s) }
    ensures boxes { HasBoxes setup.now outs.new }
    ensures spare { outs.old.spare
        ≤ outs.new.spare
        + length (children_of caps.old.caps (region caps.old.caps wanted.root)) }
    ensures job_spare { jobs.old.spare ≤ jobs.new.spare + 1 }
    ensures caps_spare { caps.new.spare ≡ caps.old.spare }
    ensures dtus { dtus.new.ours ≡ dtus.old.ours }
    ensures space { HasSpace caps.new scratch.new }
    ensures gone { vec_capacity scratch.new.gone ≡ vec_capacity scratch.old.gone }
{
    let NewJob {
        kernel,
        root,
        up,
        waiter,
        keep,
    } = wanted;
    let job = start_job(root, up, waiter, keep, jobs);
    mark_region(caps, root, job, &mut scratch.keys, &mut scratch.links);
    dtus.unbind_all(&scratch.keys);
    request_all(setup, kernel, job, &scratch.links, caps, jobs, outs);
    job
}

// Opens a job that does or does not keep its root, and returns its id. No token is out for it.
fn start_job(root: Key, up: Option<Up>, waiter: Option<u16>, keep: bool, jobs: &mut Jobs) -> u32
    requires waiter { IfSome waiter (λ v. v < VPES) }
    requires keep { keep ≡ true → up ≡ None }
    requires job { 0 < jobs.old.spare }
    requires ids { jobs.old.next < 4294967295 }
    ensures id { result ≡ jobs.old.next }
    ensures jobs { jobs.new.jobs
        ≡ job_opened jobs.old.next root up (waiters_of waiter) keep jobs.old.jobs }
    ensures count { HasCount jobs.new.jobs result 0 }
    ensures next { jobs.new.next ≡ jobs.old.next + 1 }
    ensures spare { jobs.old.spare ≤ jobs.new.spare + 1 }
{
    let job = jobs.begin(root, up, waiter);
    if keep {
        // Shows the proof that the ids rise.
        let _ = jobs.get(job);
        jobs.keep(job);
    }
    job
}

// Requests or adopts each of the keys in turn.
fn request_all(
    setup: &Setup,
    kernel: u32,
    job: u32,
    keys: &[Key],
    caps: &Caps,
    jobs: &mut Jobs,
    outs: &mut Outboxes,
)
    requires boxes { HasBoxes setup.now outs.old }
    requires owners { All (HasOwner setup.now) keys.now }
    requires spare { length keys.now ≤ outs.old.spare }
    requires count { HasCount jobs.old.jobs job 0 }
    ensures row { (s : Side) →
        with_caps caps.now.caps (with_jobs jobs.new.jobs jobs.new.next (with_outs outs.new.boxes s))
        ≡ in_turn (request_or_adopt_spec setup.now kernel job) keys.now
        (with_caps caps.now.caps
        (with_jobs jobs.old.jobs jobs.old.next (with_outs outs.old.boxes s))) }
    ensures boxes { HasBoxes setup.now outs.new }
    ensures spare { outs.old.spare ≤ outs.new.spare + length keys.now }
    ensures job_spare { jobs.new.spare ≡ jobs.old.spare }
{
    for at in 0..keys.len() {
        request_or_adopt(setup, kernel, job, keys[at], caps, jobs, outs);
    }
}

// A remote child gets a request. A local child that another job has marked makes this job wait for
// that one.
fn request_or_adopt(
    setup: &Setup,
    kernel: u32,
    job: u32,
    key: Key,
    caps: &Caps,
    jobs: &mut Jobs,
    outs: &mut Outboxes,
)
    requires boxes { HasBoxes setup.now outs.old }
    requires owner { HasOwner setup.now key }
    requires spare { 0 < outs.old.spare }
    requires count { HasCount jobs.old.jobs job 18446744073709551614 }
    ensures row { (s : Side) →
        with_caps caps.now.caps (with_jobs jobs.new.jobs jobs.new.next (with_outs outs.new.boxes s))
        ≡ request_or_adopt_spec setup.now kernel job key
        (with_caps caps.now.caps
        (with_jobs jobs.old.jobs jobs.old.next (with_outs outs.old.boxes s))) }
    ensures count { (n : ℕ) → HasCount jobs.old.jobs job n → HasCount jobs.new.jobs job (n + 1) }
    ensures boxes { HasBoxes setup.now outs.new }
    ensures spare { outs.old.spare ≤ outs.new.spare + 1 }
    ensures job_spare { jobs.new.spare ≡ jobs.old.spare }
{
    let owner = setup.owner_of(key);
    if owner != kernel {
        outs.send(owner, request(key, job));
        jobs.add_outstanding(job);
        return;
    }
    if let Some(marker) = other_marker(caps, key, job) {
        adopt(marker, job, jobs);
    }
}

// Lets the adopter wait for the job that marks a child of its region.
fn adopt(marker: u32, adopter: u32, jobs: &mut Jobs)
    requires { HasCount jobs.old.jobs adopter 18446744073709551614 }
    ensures { jobs.new
        ≡ record jobs.old {
          jobs =
              count_raised adopter (with_up (Local adopter) marker jobs.old.jobs);
        } }
{
    jobs.set_up(marker, Up::Local { job: adopter });
    jobs.add_outstanding(adopter);
}

// The job that marks the capability of that key, unless it is the given one.
fn other_marker(caps: &Caps, key: Key, job: u32) -> Option<u32>
    ensures { result ≡ other_marker_spec job (cap_of caps.now.caps key) }
{
    let cap = caps.get(key)?;
    let marker = cap.mark?;
    if marker == job { None } else { Some(marker) }
}

// The job, if no token is out for it.
pub fn done_job(jobs: &Jobs, job: u32) -> Option<u32>
    ensures done { option_and_then (job_of jobs.now.jobs) result
        ≡ if_done (job_of jobs.now.jobs job) }
    ensures there { IfSome result (λ j. IsSome (job_of jobs.now.jobs j)) }
    ensures same { IfSome result (λ j. (j ≡ job)) }
{
    let open = jobs.get(job)?;
    if open.outstanding == 0 {
        Some(job)
    } else {
        None
    }
}

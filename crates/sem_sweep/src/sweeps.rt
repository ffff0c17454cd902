ghost use Rattle.std.specs.Prelude.{◌≡◌, ℕ, ◌+◌, ◌<◌, ◌≤◌, All, IfSome, IsSome, length};
ghost use Rattle.std.specs.Prelude.{vec_capacity};
ghost use Rattle.std.specs.Option.{option_and_then};
ghost use Rattle.sem_key.specs.declared.limits.TheConstants.{VPES};
ghost use Rattle.sem_key.specs.CapList.{restored};
ghost use Rattle.sem_msg.specs.declared.code.Code.TheVariants.{Ok as OkCode};
ghost use Rattle.sem_msg.specs.declared.state.Parked.TheVariants.{Ready};
ghost use Rattle.sem_msg.specs.Codes.{code_number};
ghost use Rattle.sem_msg.specs.JobRows.{job_of, next_done, token_given_back};
ghost use Rattle.sem_msg.specs.ParkedStates.{parked_as};
ghost use Rattle.sem_msg.specs.Outboxes.{HasBoxes};
ghost use Rattle.sem_msg.specs.Setup.{Setup as SetupOf};
ghost use Rattle.sem_vpe.specs.VpeTable.{AreOurs, IsOurs};
ghost use Rattle.sem_machine.specs.Sides.{Side, no_side};
ghost use Rattle.sem_machine.specs.Stores.{installing, with_caps, with_jobs, with_outs, with_vpes};
ghost use Rattle.sem_machine.specs.Revokes.{HasOwner, all_woken, finish, left_parent, parent_left};
ghost use Rattle.sem_machine.specs.Revokes.{spared, swept, up_told, woken};
ghost use Rattle.sem_sweep.specs.Sweeping.{CanSweepCap, IsUpOf};
ghost use Rattle.sem_sweep.specs.Sweeping.{is_remote as is_remote_spec, marked_removed};
ghost use Rattle.sem_sweep.specs.Sweeping.{parent_messages, sweeping, up_messages};

use crate::messages::{tell, tell_owner, token, unlinking};
use sem_caps::Caps;
use sem_jobs::{Job, Jobs, Scratch, VpeList};
use sem_key::{Key, VPES};
use sem_msg::{Code, Outboxes, Parked, Setup, Up};
use sem_park::Park;
use sem_vpe::Vpes;

/// Finishes the job, and then every job that this finishes.
pub fn sweep(
    setup: &Setup,
    kernel: u32,
    job: u32,
    caps: &mut Caps,
    vpes: &mut Vpes,
    jobs: &mut Jobs,
    park: &mut Park,
    outs: &mut Outboxes,
    scratch: &mut Scratch,
)
    requires there { IsSome (job_of jobs.old.jobs job) }
    requires home { AreOurs setup.now kernel vpes.old }
    requires caps { All (CanSweepCap setup.now kernel) caps.old.caps }
    requires ups { All (λ x. IsUpOf setup.now x.up) jobs.old.jobs }
    requires boxes { HasBoxes setup.now outs.old }
    requires spare { length jobs.old.jobs ≤ outs.old.spare }
    requires space { length caps.old.caps ≤ vec_capacity scratch.old.gone }
    ensures row { (s : Side) →
        sweeping caps.new vpes.new jobs.new park.new outs.new s
        ≡ finish setup.now kernel (length jobs.old.jobs) (job_of jobs.old.jobs job)
        (sweeping caps.old vpes.old jobs.old park.old outs.old s) }
    ensures ours { vpes.new.ours ≡ vpes.old.ours }
    ensures boxes { HasBoxes setup.now outs.new }
    ensures spare { outs.old.spare + length jobs.new.jobs ≤ outs.new.spare + length jobs.old.jobs }
    ensures job_spare { jobs.old.spare ≤ jobs.new.spare }
    ensures caps_spare { caps.old.spare ≤ caps.new.spare }
    ensures space { vec_capacity scratch.new.gone ≡ vec_capacity scratch.old.gone }
    ensures keys { vec_capacity scratch.new.keys ≡ vec_capacity scratch.old.keys }
    ensures links { vec_capacity scratch.new.links ≡ vec_capacity scratch.old.links }
{
    let mut next = Some(job);
    while let Some(id) = next {
        let Some(finished) = jobs.take(id) else {
            unreachable!()
        };
        let parent = close(&finished, caps, vpes, park, &mut scratch.gone);
        leave_parent(setup, kernel, &finished, parent, caps, outs);
        next = tell_up(setup, finished.up, jobs, outs);
    }
}

// Sweeps what a finished job has marked, and wakes the calls that wait for it. Returns the parent
// that its root leaves.
fn close(
    finished: &Job,
    caps: &mut Caps,
    vpes: &mut Vpes,
    park: &mut Park,
    gone: &mut Vec<(Key, u8)>,
) -> Option<Key>
    requires ours { All (λ c. IsOurs vpes.old c.key.vpe) caps.old.caps }
    requires space { length caps.old.caps ≤ vec_capacity gone.old }
    ensures row { (s : Side) →
        installing caps.new.caps vpes.new.rows park.new s
        ≡ woken finished.now.waiters
        (swept finished.now (installing caps.old.caps vpes.old.rows park.old s)) }
    ensures parent { result ≡ left_parent (with_caps caps.old.caps no_side) finished.now }
    ensures kept { (T : SetupOf) (i : ℕ) → All (CanSweepCap T i) caps.old.caps →
        All (CanSweepCap T i) caps.new.caps }
    ensures count { length caps.new.caps ≤ length caps.old.caps }
    ensures ours { vpes.new.ours ≡ vpes.old.ours }
    ensures spare { caps.old.spare ≤ caps.new.spare }
    ensures space { vec_capacity gone.new ≡ vec_capacity gone.old }
{
    let parent = parent_to_leave(finished, caps);
    spare_root(finished, caps);
    remove_caps(finished.id, finished.root, caps, vpes, gone);
    wake_all(&finished.slots, park);
    parent
}

// The parent that loses the root of a finished job: none, if the job keeps its root.
fn parent_to_leave(finished: &Job, caps: &Caps) -> Option<Key>
    ensures { result ≡ left_parent (with_caps caps.now.caps no_side) finished.now }
{
    if finished.keep {
        return None;
    }
    let cap = caps.get(finished.root)?;
    cap.parent
}

// If the job keeps its root, the root loses its mark and its child links.
fn spare_root(finished: &Job, caps: &mut Caps)
    ensures caps { caps.new.caps ≡ spared finished.now.keep finished.now.root caps.old.caps }
    ensures spare { caps.new.spare ≡ caps.old.spare }
    ensures kept { (T : SetupOf) (i : ℕ) → All (CanSweepCap T i) caps.old.caps →
        All (CanSweepCap T i) caps.new.caps }
    ensures count { length caps.new.caps ≡ length caps.old.caps }
{
    if finished.keep {
        restore(finished.root, caps);
    }
}

// The capability of that key, if it is held, loses its mark and its child links.
fn restore(root: Key, caps: &mut Caps)
    ensures caps { caps.new.caps ≡ restored caps.old.caps root }
    ensures spare { caps.new.spare ≡ caps.old.spare }
{
    if caps.get(root).is_some() {
        caps.restore(root);
    }
}

// Removes all that the job of that root has marked, and frees its selectors.
fn remove_caps(job: u32, root: Key, caps: &mut Caps, vpes: &mut Vpes, gone: &mut Vec<(Key, u8)>)
    requires ours { All (λ c. IsOurs vpes.old c.key.vpe) caps.old.caps }
    requires space { length caps.old.caps ≤ vec_capacity gone.old }
    ensures row { (s : Side) →
        with_caps caps.new.caps (with_vpes vpes.new.rows s)
        ≡ marked_removed job (with_caps caps.old.caps (with_vpes vpes.old.rows s)) }
    ensures kept { (T : SetupOf) (i : ℕ) → All (CanSweepCap T i) caps.old.caps →
        All (CanSweepCap T i) caps.new.caps }
    ensures count { length caps.new.caps ≤ length caps.old.caps }
    ensures ours { vpes.new.ours ≡ vpes.old.ours }
    ensures spare { caps.old.spare ≤ caps.new.spare }
    ensures space { vec_capacity gone.new ≡ vec_capacity gone.old }
{
    gone.clear();
    caps.remove_marked_of(job, Some(root), gone);
    for at in 0..gone.len() {
        let (key, sel) = gone[at];
        vpes.release(key.vpe, sel);
    }
}

// The waiting calls of the VPEs will succeed.
fn wake_all(waiters: &VpeList, park: &mut Park)
    ensures { park.new ≡ all_woken waiters.now park.old }
{
    for vpe in waiters.first()..VPES {
        if waiters.has(vpe) {
            wake(vpe, park);
        }
    }
}

fn wake(vpe: u16, park: &mut Park)
    requires { vpe < VPES }
    ensures { park.new ≡ parked_as park.old vpe (Ready (code_number OkCode)) }
{
    park.park(
        vpe,
        Parked::Ready {
            code: Code::Ok.number(),
        },
    );
}

// Whether the job that waits is of another kernel.
fn is_remote(up: Option<Up>) -> bool
    ensures { result ≡ is_remote_spec up }
{
    matches!(up, Some(Up::Remote { .. }))
}

// The parent of the root of a finished job loses its link to it. The kernel of a remote parent is
// told, unless a job there waits.
fn leave_parent(
    setup: &Setup,
    kernel: u32,
    finished: &Job,
    parent: Option<Key>,
    caps: &mut Caps,
    outs: &mut Outboxes,
)
    requires owner { IfSome parent (HasOwner setup.now) }
    requires boxes { HasBoxes setup.now outs.old }
    requires spare { parent_messages finished.now.up ≤ outs.old.spare }
    ensures row { (s : Side) →
        with_caps caps.new.caps (with_outs outs.new.boxes s)
        ≡ parent_left setup.now kernel finished.now parent
        (with_caps caps.old.caps (with_outs outs.old.boxes s)) }
    ensures kept { (i : ℕ) → All (CanSweepCap setup.now i) caps.old.caps →
        All (CanSweepCap setup.now i) caps.new.caps }
    ensures count { length caps.new.caps ≡ length caps.old.caps }
    ensures boxes { HasBoxes setup.now outs.new }
    ensures spare { outs.old.spare ≤ outs.new.spare + parent_messages finished.now.up }
    ensures caps_spare { caps.new.spare ≡ caps.old.spare }
{
    let Some(parent) = parent else {
        return;
    };
    if setup.owner_of(parent) == kernel {
        caps.unlink(parent, finished.root);
    } else if !is_remote(finished.up) {
        tell_owner(setup, parent, unlinking(parent, finished.root), outs);
    }
}

// Tells the job that waits for a finished one. Returns its id if it finishes next.
fn tell_up(setup: &Setup, up: Option<Up>, jobs: &mut Jobs, outs: &mut Outboxes) -> Option<u32>
    requires boxes { HasBoxes setup.now outs.old }
    requires up { IsUpOf setup.now up }
    requires spare { up_messages up ≤ outs.old.spare }
    ensures row { (s : Side) →
        with_jobs jobs.new.jobs jobs.new.next (with_outs outs.new.boxes s)
        ≡ up_told up (with_jobs jobs.old.jobs jobs.old.next (with_outs outs.old.boxes s)) }
    ensures next { option_and_then (job_of jobs.new.jobs) result ≡ next_done up jobs.new.jobs }
    ensures told { jobs.new ≡ record jobs.old { jobs = token_given_back up jobs.old.jobs } }
    ensures there { IfSome result (λ j. IsSome (job_of jobs.new.jobs j)) }
    ensures boxes { HasBoxes setup.now outs.new }
    ensures spare { outs.old.spare ≤ outs.new.spare + up_messages up }
{
    match up {
        Some(Up::Local { job }) => jobs.token_back(job),
        Some(Up::Remote { kernel, job }) => {
            tell(setup, kernel, token(job), outs);
            None
        }
        None => None,
    }
}

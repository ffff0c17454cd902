ghost use Rattle.std.specs.Prelude.{◌≡◌, ◌<◌, ◌≤◌, ◌+◌, All, length};
ghost use Rattle.sem_key.specs.declared.limits.TheConstants.{VPES};
ghost use Rattle.sem_msg.specs.JobRows.{waiter_left};
ghost use Rattle.sem_msg.specs.Lookups.{kernel_of as kernel_of_spec};
ghost use Rattle.sem_msg.specs.Outboxes.{CanSend, HasBoxes, HasSent};
ghost use Rattle.sem_msg.specs.ParkedStates.{state_of};
ghost use Rattle.sem_msg.specs.VpeRows.{row};
ghost use Rattle.sem_vpe.specs.VpeTable.{AreOurs};
ghost use Rattle.sem_machine.specs.Ends.{ended_but_held};
ghost use Rattle.sem_machine.specs.Sides.{Side};
ghost use Rattle.sem_machine.specs.Stores.{with_jobs, with_outs, with_parks};
ghost use Rattle.sem_sweep.specs.Sweeping.{CanOwe, HasAsker, call_taken, ending, root_left};

use crate::asks::answer_asks;
use crate::messages::{orphaned, tell_owner, withdrawal};
use sem_jobs::Jobs;
use sem_key::VPES;
use sem_msg::{Outboxes, Parked, Setup};
use sem_park::Park;
use sem_vpe::Vpes;

/// The end of a VPE, apart from what it holds: it is dead, its asks are answered, its waiting call
/// is taken out.
pub fn end_vpe(
    setup: &Setup,
    kernel: u32,
    vpe: u16,
    vpes: &mut Vpes,
    jobs: &mut Jobs,
    park: &mut Park,
    outs: &mut Outboxes,
)
    requires home { AreOurs setup.now kernel vpes.old }
    requires vpe { kernel_of_spec setup.now vpe ≡ kernel }
    requires asks { All (HasAsker setup.now) (row vpes.old.rows vpe).asks }
    requires call { CanOwe setup.now (state_of park.old vpe) }
    requires boxes { HasBoxes setup.now outs.old }
    requires spare { length (row vpes.old.rows vpe).asks + 1 ≤ outs.old.spare }
    ensures row { (s : Side) →
        ending vpes.new jobs.new park.new outs.new s
        ≡ ended_but_held setup.now kernel vpe (ending vpes.old jobs.old park.old outs.old s) }
    ensures ours { vpes.new.ours ≡ vpes.old.ours }
    ensures boxes { HasBoxes setup.now outs.new }
    ensures spare { outs.old.spare ≤ outs.new.spare + (length (row vpes.old.rows vpe).asks + 1) }
    ensures job_spare { jobs.old.spare ≤ jobs.new.spare }
    ensures next { jobs.new.next ≡ jobs.old.next }
    ensures count { length jobs.new.jobs ≡ length jobs.old.jobs }
{
    // Shows the proof that the VPE has a place.
    let _ = vpes.alive(vpe);
    vpes.end(vpe);
    answer_asks(setup, kernel, vpe, vpes, park, outs);
    end_call(setup, vpe, jobs, park, outs);
}

// Takes out the call of the dead VPE and sends what it owes; the VPE no longer waits for a job.
fn end_call(setup: &Setup, vpe: u16, jobs: &mut Jobs, park: &mut Park, outs: &mut Outboxes)
    requires vpe { vpe < VPES }
    requires owes { CanOwe setup.now (state_of park.old vpe) }
    requires sends { CanSend setup.now outs.old }
    ensures row { (s : Side) →
        with_jobs jobs.new.jobs jobs.new.next (with_parks park.new (with_outs outs.new.boxes s))
        ≡ call_taken setup.now vpe
        (with_jobs jobs.old.jobs jobs.old.next (with_parks park.old (with_outs outs.old.boxes s))) }
    ensures left { HasSent setup.now outs.old outs.new }
    ensures job_spare { jobs.new.spare ≡ jobs.old.spare }
    ensures next { jobs.new.next ≡ jobs.old.next }
    ensures count { length jobs.new.jobs ≡ length jobs.old.jobs }
{
    let state = park.state(vpe);
    park.clear(vpe);
    match &state {
        Some(Parked::ObtainReady { key, parent, .. }) => {
            tell_owner(setup, *parent, orphaned(*parent, *key), outs);
        }
        Some(Parked::DelegateReady { key, .. }) => {
            tell_owner(setup, *key, withdrawal(*key), outs);
        }
        Some(Parked::RevokeWait { job }) => leave_job(vpe, *job, jobs),
        _ => {}
    }
}

// The VPE, which waited for the job, waits for no job, and no job keeps a root for it.
fn leave_job(vpe: u16, job: u32, jobs: &mut Jobs)
    ensures jobs { jobs.new ≡ record jobs.old { jobs = waiter_left job vpe jobs.old.jobs } }
    ensures count { length jobs.new.jobs ≡ length jobs.old.jobs }
{
    give_up_root(vpe, job, jobs);
    jobs.leave(vpe);
}

// If the root of the job is a capability of the VPE, the job no longer keeps it.
fn give_up_root(vpe: u16, job: u32, jobs: &mut Jobs)
    ensures { jobs.new ≡ record jobs.old { jobs = root_left job vpe jobs.old.jobs } }
{
    let Some(open) = jobs.get(job) else {
        return;
    };
    if open.root.vpe == vpe {
        jobs.give_up(job);
    }
}

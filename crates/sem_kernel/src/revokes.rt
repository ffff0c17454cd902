// Revocation on the stores of a kernel.
ghost use Rattle.std.specs.Prelude.{◌≡◌, ◌≢◌, ◌+◌, ◌<◌, ◌≤◌, None, Some, IfSome, IsSome, length};
ghost use Rattle.std.specs.Prelude.{vec_capacity};
ghost use Rattle.sem_msg.specs.declared.message.Message.TheVariants.{RevokeReq, RevokeDone};
ghost use Rattle.sem_msg.specs.JobRows.{job_of};
ghost use Rattle.sem_msg.specs.Message.{IsJobId};
ghost use Rattle.sem_msg.specs.Setup.{IsSetup};
ghost use Rattle.sem_machine.specs.Sides.{parked};
ghost use Rattle.sem_machine.specs.Calls.{clear_row, revoke_row};
ghost use Rattle.sem_machine.specs.Revokes.{finished};
ghost use Rattle.sem_machine.specs.Sound.{IsSoundBut, ids_owed, ids_paid};
ghost use Rattle.sem_kernel.specs.KernelStores.{side_of, AreStoresOf, AreSound};
ghost use Rattle.sem_kernel.specs.Handing.{CanCall, HasCalled, HasHandled};
ghost use Rattle.sem_kernel.specs.Rooms.{HasRoomToRevoke};

use crate::stores::Stores;
use sem_key::Key;
use sem_mark::{clear_call, revoke_call, revoke_request};
use sem_msg::{Outcome, Setup};
use sem_sweep::{revoke_done, sweep};

impl Stores {
    pub fn revoke(&mut self, setup: &Setup, kernel: u32, vpe: u16, src: u8) -> Outcome
        requires can { CanCall setup.now kernel vpe self.old }
        requires idle { parked (side_of self.old) vpe ≡ None }
        requires room { HasRoomToRevoke 0 self.old }
        ensures { HasCalled setup.now kernel self.new result
            (revoke_row setup.now kernel (side_of self.old) vpe src) }
    {
        lend!(self => caps, vpes, dtus, park, jobs, outs, scratch);
        let (outcome, done) = revoke_call(
            setup, kernel, vpe, src, caps, vpes, dtus, jobs, park, outs, scratch,
        );
        self.finish(setup, kernel, done);
        outcome
    }

    // The call `clear`, which pays for its job.
    pub fn clear(&mut self, setup: &Setup, kernel: u32, vpe: u16, src: u8) -> Outcome
        requires can { CanCall setup.now kernel vpe self.old }
        requires idle { parked (side_of self.old) vpe ≡ None }
        requires pays { ids_owed (side_of self.old) + 1 ≤ ids_paid (side_of self.old) }
        requires room { HasRoomToRevoke 0 self.old }
        ensures { HasCalled setup.now kernel self.new result
            (clear_row setup.now kernel (side_of self.old) vpe src) }
    {
        lend!(self => caps, vpes, dtus, park, jobs, outs, scratch);
        let (outcome, done) = clear_call(
            setup, kernel, vpe, src, caps, vpes, dtus, jobs, park, outs, scratch,
        );
        self.finish(setup, kernel, done);
        outcome
    }

    // Another kernel asks to revoke a key.
    pub fn revoke_requested(&mut self, setup: &Setup, kernel: u32, from: u32, key: Key, job: u32)
        requires are { AreSound setup.now kernel self.old }
        requires from { from < setup.now.kernels }
        requires other { from ≢ kernel }
        requires id { IsJobId job }
        requires room { HasRoomToRevoke 0 self.old }
        ensures { HasHandled setup.now kernel from self.old self.new (RevokeReq key job) }
    {
        lend!(self => caps, vpes, dtus, park, jobs, outs, scratch);
        let done = revoke_request(
            setup, kernel, from, key, job, caps, vpes, dtus, jobs, park, outs, scratch,
        );
        self.finish(setup, kernel, done);
    }

    // A token came back to a job.
    pub fn token_returned(&mut self, setup: &Setup, kernel: u32, from: u32, job: u32)
        requires are { AreSound setup.now kernel self.old }
        requires outs { length self.old.jobs.jobs ≤ self.old.outs.spare }
        requires gone { length self.old.caps.caps ≤ vec_capacity self.old.scratch.gone }
        ensures { HasHandled setup.now kernel from self.old self.new (RevokeDone job) }
    {
        let done = revoke_done(job, &mut self.jobs);
        self.finish(setup, kernel, done);
    }

    // Finishes the job, if one is named, and then every job that this finishes.
    pub fn finish(&mut self, setup: &Setup, kernel: u32, job: Option<u32>)
        requires setup { IsSetup setup.now }
        requires is_one { kernel < setup.now.kernels }
        requires stores { AreStoresOf setup.now kernel self.old }
        requires there { IfSome job (λ j. IsSome (job_of self.old.jobs.jobs j)) }
        requires sound { IfSome job
            (λ j. IsSoundBut setup.now kernel None None None (Some j) 0 (side_of self.old)) }
        requires outs { IsSome job → length self.old.jobs.jobs ≤ self.old.outs.spare }
        requires gone { IsSome job →
            length self.old.caps.caps ≤ vec_capacity self.old.scratch.gone }
        ensures row { side_of self.new ≡ finished setup.now kernel job (side_of self.old) }
        ensures stores { AreStoresOf setup.now kernel self.new }
        ensures outs { self.old.outs.spare + length self.new.jobs.jobs
            ≤ self.new.outs.spare + length self.old.jobs.jobs }
        ensures jobs { self.old.jobs.spare ≤ self.new.jobs.spare }
        ensures keys { vec_capacity self.new.scratch.keys ≡ vec_capacity self.old.scratch.keys }
        ensures links { vec_capacity self.new.scratch.links ≡ vec_capacity self.old.scratch.links }
        ensures gone { vec_capacity self.new.scratch.gone ≡ vec_capacity self.old.scratch.gone }
        ensures ended { self.new.ended ≡ self.old.ended }
    {
        if let Some(job) = job {
            lend!(self => caps, vpes, park, jobs, outs, scratch);
            sweep(setup, kernel, job, caps, vpes, jobs, park, outs, scratch);
        }
    }
}

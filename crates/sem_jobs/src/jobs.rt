ghost use Rattle.std.specs.Prelude.{◌≡◌, ℕ, ◌+◌, ◌<◌, ◌≤◌, ◌++◌, [], length, vec_len, vec_capacity};
ghost use Rattle.std.specs.Prelude.{false, None, Some, IsSome, IsSomeAnd, IfSome, IfOk, OnOk};
ghost use Rattle.std.specs.Option.{option_and_then};
ghost use Rattle.sem_msg.specs.JobRows.{job_of, job_opened, job_removed, count_raised};
ghost use Rattle.sem_msg.specs.JobRows.{count_lowered, if_done, token_given_back, keep_set};
ghost use Rattle.sem_msg.specs.JobRows.{keep_given_up};
ghost use Rattle.sem_msg.specs.JobRows.{with_up, waiters_of, waiter_added, waiter_removed};
ghost use Rattle.sem_jobs.specs.JobStore.{IsJobStore, IsPlaceOf, is_done, new_job};
ghost use Rattle.sem_jobs.specs.Chain.{next_finishing, chain, chain_of};
ghost use Rattle.sem_jobs.specs.Stored.{IsPlaced, rows_of};

use crate::job::Job;
use crate::spot::IdSpot;
use crate::vpe_list::VpeList;
use sem_key::{Key, OutOfMemory, VPES};
use sem_msg::Up;
use slab::Slab;
use std::alloc::Global;
use std::marker::Model;

/// The open jobs of one kernel, each under its own id. Ids are drawn in rising order from 0. Only
/// `new` and `room` take memory.
#[derive(Debug, Drop)]
pub struct Jobs {
    // A job keeps its place for as long as it is open.
    slab: Slab<Job>,
    // Where they lie, by rising id.
    spots: Vec<IdSpot>,
    // The id of the next job.
    next: u32,
}

impl Model for Jobs {
    ghost use Rattle.std.specs.Prelude.{◌-◌, min, vec_len, vec_capacity};
    ghost use Rattle.sem_msg.specs.JobRows.{ids_of};
    ghost use Rattle.sem_jobs.specs.JobStore.{JobStore, HasRisingIds};
    ghost use Rattle.sem_jobs.specs.Stored.{rows_of, IsPlaced};

    ghost Value = { JobStore };

    ghost view = { λ s. record {
      jobs = rows_of s.slab s.spots.items;
      next = s.next;
      spare = min s.slab.capacity (vec_capacity s.spots) - vec_len s.spots;
    } };

    ghost invariant = { λ s. HasRisingIds (ids_of (rows_of s.slab s.spots.items)) s.next
        × IsPlaced s.slab s.spots.items };
}

impl Jobs {
    /// No jobs.
    pub fn new(alloc: Global) -> Result<Self, OutOfMemory>
        ensures jobs { IfOk result (λ store. store.jobs ≡ []) }
        ensures next { IfOk result (λ store. store.next ≡ 0) }
    {
        Ok(Jobs {
            slab: Slab::new(alloc),
            spots: Vec::new(alloc),
            next: 0,
        })
    }

    /// Makes room for `more` jobs. The jobs stay as they are, even if memory is refused.
    pub fn room(&mut self, more: usize) -> Result<(), OutOfMemory>
        ensures room { OnOk result (more ≤ self.new.spare) }
        ensures jobs { self.new ≡ record self.old { spare = self.new.spare } }
        ensures spare { self.old.spare ≤ self.new.spare }
    {
        self.slab.reserve(more)?;
        self.spots.reserve(more)
    }

    /// The job with that id; none if it is not there.
    pub fn get(&self, job: u32) -> Option<Job>
        ensures job { result ≡ job_of self.now.jobs job }
        ensures store { IsJobStore self.now }
    {
        let at = self.search(job)?;
        let open = &self.slab[self.spots[at].place];
        Some(open.copy())
    }

    /// Opens a job with the next id, which the VPE waits for, if one is given, and returns the id.
    /// No token is out for the job.
    ///
    /// There must be room for the job. Fewer than 4,294,967,295 ids may have been drawn, and the
    /// VPE must be 0 to 127.
    pub fn begin(&mut self, root: Key, up: Option<Up>, waiter: Option<u16>) -> u32
        requires waiter { IfSome waiter (λ v. v < VPES) }
        requires room { 0 < self.old.spare }
        requires ids { self.old.next < 4294967295 }
        ensures id { result ≡ self.old.next }
        ensures jobs { self.new.jobs
            ≡ job_opened self.old.next root up (waiters_of waiter) false self.old.jobs }
        ensures there { job_of self.new.jobs result
            ≡ Some (new_job result root up (waiters_of waiter)) }
        ensures next { self.new.next ≡ self.old.next + 1 }
        ensures spare { self.old.spare ≤ self.new.spare + 1 }
    {
        let id = self.next;
        let place = self.slab.insert_reserved(Job {
            id,
            root,
            outstanding: 0,
            up,
            slots: VpeList::of(waiter),
            keep: false,
        });
        self.spots.push_reserved(IdSpot { id, place });
        self.next += 1;
        id
    }

    /// The job keeps its root.
    ///
    /// The job must be there, and no other job may wait for it.
    pub fn keep(&mut self, job: u32)
        requires { IsSomeAnd (job_of self.old.jobs job) (λ x. x.up ≡ None) }
        ensures { self.new ≡ record self.old { jobs = keep_set job self.old.jobs } }
    {
        let Some(at) = self.search(job) else {
            unreachable!()
        };
        let open = &mut self.slab[self.spots[at].place];
        open.keep();
    }

    /// The job no longer keeps its root. If it is not there, nothing changes.
    pub fn give_up(&mut self, job: u32)
        ensures { self.new ≡ record self.old { jobs = keep_given_up job self.old.jobs } }
    {
        let Some(at) = self.search(job) else {
            return;
        };
        let open = &mut self.slab[self.spots[at].place];
        open.give_up();
    }

    /// One more token is out for the job. If it is not there, nothing changes.
    ///
    /// Fewer than 18,446,744,073,709,551,615 tokens may be out for it.
    pub fn add_outstanding(&mut self, job: u32)
        requires { IfSome (job_of self.old.jobs job) (λ x. x.count < 18446744073709551615) }
        ensures { self.new ≡ record self.old { jobs = count_raised job self.old.jobs } }
    {
        let Some(at) = self.search(job) else {
            return;
        };
        let open = &mut self.slab[self.spots[at].place];
        open.raise();
    }

    /// Lets another job wait for the job, in place of the one that did before. The job no longer
    /// keeps its root. If it is not there, nothing changes.
    pub fn set_up(&mut self, job: u32, up: Up)
        ensures { self.new ≡ record self.old { jobs = with_up up job self.old.jobs } }
    {
        let Some(at) = self.search(job) else {
            return;
        };
        let open = &mut self.slab[self.spots[at].place];
        open.set_up(up);
    }

    /// Lets the VPE wait for the job.
    ///
    /// The job must be there, and the VPE must be 0 to 127.
    pub fn wait(&mut self, job: u32, vpe: u16)
        requires there { IsSome (job_of self.old.jobs job) }
        requires vpe_in_range { vpe < VPES }
        ensures { self.new ≡ record self.old { jobs = waiter_added job vpe self.old.jobs } }
    {
        let Some(at) = self.search(job) else {
            unreachable!()
        };
        let open = &mut self.slab[self.spots[at].place];
        open.wait(vpe);
    }

    /// Lets the VPE wait for no job.
    pub fn leave(&mut self, vpe: u16)
        ensures { self.new ≡ record self.old { jobs = waiter_removed vpe self.old.jobs } }
    {
        leave_all(&mut self.slab, &self.spots, vpe);
    }

    /// Gives the job one token back, and returns whether it was the last one out.
    ///
    /// The job must be there, and a token must be out for it.
    pub fn done(&mut self, job: u32) -> bool
        requires { IsSomeAnd (job_of self.old.jobs job) (λ x. 0 < x.count) }
        ensures last { result ≡ is_done (job_of self.new.jobs job) }
        ensures jobs { self.new ≡ record self.old { jobs = count_lowered job self.old.jobs } }
    {
        let Some(at) = self.search(job) else {
            unreachable!()
        };
        let open = &mut self.slab[self.spots[at].place];
        open.lower();
        open.outstanding == 0
    }

    /// Gives the job one token back; a count of 0 stays. Returns the job, if it is there and no
    /// token is out for it.
    pub fn token_back(&mut self, job: u32) -> Option<u32>
        ensures next { option_and_then (job_of self.new.jobs) result
            ≡ if_done (job_of self.new.jobs job) }
        ensures there { IfSome result (λ j. IsSome (job_of self.new.jobs j)) }
        ensures jobs { self.new ≡ record self.old { jobs = count_lowered job self.old.jobs } }
    {
        let waiting = self.get(job)?;
        if waiting.outstanding == 0 {
            return Some(job);
        }
        self.done(job).then_some(job)
    }

    /// Takes the job out and returns it; none if it is not there.
    pub fn take(&mut self, job: u32) -> Option<Job>
        ensures job { result ≡ job_of self.old.jobs job }
        ensures store { IsJobStore self.old }
        ensures jobs { self.new.jobs ≡ job_removed job self.old.jobs }
        ensures next { self.new.next ≡ self.old.next }
        ensures spare { self.old.spare ≤ self.new.spare }
    {
        let at = self.search(job)?;
        let spot = self.spots.remove(at);
        Some(self.slab.remove(spot.place))
    }

    /// Finishes the job, and then every job that this finishes, one after another: takes each out
    /// and appends it to `out`. After each, the local job that waits for it gets a token back, if
    /// it is there and a token is out for it. If that was its last one, it finishes next.
    ///
    /// The job must be there, no token may be out for it, and `out` must have room for all jobs.
    pub fn finish_chain(&mut self, job: u32, out: &mut Vec<Job>)
        requires done { IsSomeAnd (job_of self.old.jobs job) (λ x. x.count ≡ 0) }
        requires room { vec_len out.old + length self.old.jobs ≤ vec_capacity out.old }
        ensures out { out.new.items ≡ out.old.items ++ (chain_of job self.old.jobs).gone }
        ensures jobs { self.new.jobs ≡ (chain_of job self.old.jobs).left }
        ensures next { self.new.next ≡ self.old.next }
        ensures spare { self.old.spare ≤ self.new.spare }
        ensures capacity { vec_capacity out.new ≡ vec_capacity out.old }
        ensures bound { (n : ℕ) → length self.old.jobs ≤ n →
            chain n (job_of self.old.jobs job) self.old.jobs ≡ chain_of job self.old.jobs }
    {
        // Shows the proof that the ids rise.
        let _ = &self.spots;
        let mut next = Some(job);
        while let Some(id) = next {
            let Some(finished) = self.take(id) else {
                unreachable!()
            };
            let up = finished.up;
            out.push_reserved(finished);
            next = self.tell(up);
        }
    }

    /// The number of open jobs.
    pub fn len(&self) -> usize
        ensures { result ≡ length self.now.jobs }
    {
        self.spots.len()
    }

    /// How many ids were drawn, which is the id of the next job.
    pub fn drawn(&self) -> u32
        ensures { result ≡ self.now.next }
    {
        self.next
    }

    // Gives a token back to the local job that waited for a finished one, if it is there and a
    // token is out for it. Returns its id if it finishes next.
    fn tell(&mut self, up: Option<Up>) -> Option<u32>
        ensures next { option_and_then (job_of self.new.jobs) result
            ≡ next_finishing up self.old.jobs }
        ensures there { IfSome result (λ job. IsSome (job_of self.new.jobs job)) }
        ensures jobs { self.new ≡ record self.old { jobs = token_given_back up self.old.jobs } }
    {
        let Some(Up::Local { job }) = up else {
            return None;
        };
        let waiting = self.get(job)?;
        if waiting.outstanding == 0 {
            return None;
        }
        let is_last = self.done(job);
        is_last.then_some(job)
    }

    // The place of the job in the list; none if it is not there.
    fn search(&self, job: u32) -> Option<usize>
        ensures place { IfSome result (IsPlaceOf self.now.jobs job) }
        ensures absent { result ≡ None → job_of self.now.jobs job ≡ None }
        ensures store { IsJobStore self.now }
    {
        self.spots.binary_search_by_key(&job, |spot| spot.id).ok()
    }
}

// Lets the VPE wait for none of the jobs that the spots lead to.
fn leave_all(slab: &mut Slab<Job>, spots: &[IdSpot], vpe: u16)
    requires placed { IsPlaced slab.old spots.now }
    ensures jobs { rows_of slab.new spots.now ≡ waiter_removed vpe (rows_of slab.old spots.now) }
    ensures placed { IsPlaced slab.new spots.now }
    ensures capacity { slab.new.capacity ≡ slab.old.capacity }
{
    for spot in spots {
        let open = &mut slab[spot.place];
        open.leave(vpe);
    }
}

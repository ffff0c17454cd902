ghost use Rattle.std.specs.Prelude.{◌≤◌, ◌<◌, IfSome};

use sem_jobs::{Jobs, Scratch, Up};
use sem_key::{Key, Kind, OutOfMemory, VPES};
use std::alloc::Global;
use std::process::Abort;
use std::test::Fail;

// A job of another kernel.
const FAR: Up = Up::Remote { kernel: 1, job: 1 };

// The root of a job: a memory of VPE 1, which runs on PE 1.
fn root(number: u32) -> Key
    requires { number ≤ 4095 }
{
    Key {
        pe: 1,
        vpe: 1,
        kind: Kind::Mem,
        number: number as u16,
    }
}

// Opens a job that this job and this VPE wait for, if they are given.
fn open(
    rt: &impl Abort,
    jobs: &mut Jobs,
    root: Key,
    up: Option<Up>,
    waiter: Option<u16>,
) -> Result<u32, OutOfMemory>
    requires { IfSome waiter (λ v. v < VPES) }
{
    jobs.room(1)?;
    assert!(rt; jobs.drawn() < u32::MAX);
    Ok(jobs.begin(root, up, waiter))
}

// One more token is out for the job, which is there.
fn add(rt: &impl Abort, jobs: &mut Jobs, job: u32) -> Result<(), Fail> {
    let Some(open) = jobs.get(job) else {
        return Err(Fail::new("it is there"));
    };
    assert!(rt; open.outstanding < u64::MAX);
    jobs.add_outstanding(job);
    Ok(())
}

// Whether the job is there, has that root, has that many tokens out, and that job waits for it.
fn is_as(jobs: &Jobs, job: u32, root: Key, count: u64, up: Option<Up>) -> bool {
    match jobs.get(job) {
        Some(open) => (open.id, open.root, open.outstanding, open.up) == (job, root, count, up),
        None => false,
    }
}

// The job is there, and exactly these VPEs wait for it.
fn expect_waiters(rt: &impl Abort, jobs: &Jobs, job: u32, vpes: &[u16]) -> Result<(), Fail> {
    let Some(open) = jobs.get(job) else {
        return Err(Fail::new("it is there"));
    };
    for vpe in 0..256 {
        assert_eq!(rt; open.slots.has(vpe), vpes.contains(&vpe), "VPE {vpe}");
    }
    Ok(())
}

// Two jobs with one token out for each; another kernel waits for the second.
fn two(rt: &impl Abort, alloc: Global) -> Result<Jobs, Fail> {
    let mut jobs = Jobs::new(alloc)?;
    open(rt, &mut jobs, root(4), None, None)?;
    open(rt, &mut jobs, root(9), Some(FAR), None)?;
    add(rt, &mut jobs, 0)?;
    add(rt, &mut jobs, 1)?;
    Ok(jobs)
}

#[test]
fn jobs_are_numbered_and_taken_out(rt: HostRuntime) -> Result<(), Fail> {
    let mut jobs = two(&rt, rt.alloc())?;
    assert!(rt; is_as(&jobs, 0, root(4), 1, None));
    assert!(rt; is_as(&jobs, 1, root(9), 1, Some(FAR)));
    assert!(rt; jobs.get(2).is_none() && jobs.take(2).is_none());
    assert!(rt; jobs.take(0).is_some() && jobs.take(0).is_none());
    assert_eq!(rt; (jobs.len(), jobs.drawn()), (1, 2));
    assert!(rt; is_as(&jobs, 1, root(9), 1, Some(FAR)));
    Ok(())
}

#[test]
fn the_last_token_that_comes_back_tells_the_job(rt: HostRuntime) -> Result<(), Fail> {
    let mut jobs = two(&rt, rt.alloc())?;
    add(&rt, &mut jobs, 0)?;
    let Some(open) = jobs.get(1) else {
        return Err(Fail::new("it is there"));
    };
    assert!(rt; open.outstanding > 0);
    assert!(rt; jobs.done(1), "it was the last");
    assert_eq!(rt; jobs.token_back(0), None, "one is still out");
    assert_eq!(rt; jobs.token_back(0), Some(0));
    assert_eq!(rt; jobs.token_back(0), Some(0), "none was out");
    assert_eq!(rt; jobs.token_back(7), None, "it is not there");
    assert!(rt; is_as(&jobs, 0, root(4), 0, None));
    assert!(rt; is_as(&jobs, 1, root(9), 0, Some(FAR)));
    Ok(())
}

#[test]
fn a_job_keeps_its_root_until_it_gives_up_or_another_waits(rt: HostRuntime) -> Result<(), Fail> {
    let mut jobs = Jobs::new(rt.alloc())?;
    for job in 0..3 {
        open(&rt, &mut jobs, root(job), None, None)?;
        let Some(open) = jobs.get(job) else {
            return Err(Fail::new("it is there"));
        };
        assert!(rt; open.up.is_none() && !open.keep);
        jobs.keep(job);
    }
    jobs.give_up(0);
    jobs.give_up(7);
    jobs.set_up(1, FAR);
    jobs.set_up(7, FAR);
    for (job, up, keeps) in [(0, None, false), (1, Some(FAR), false), (2, None, true)] {
        let Some(open) = jobs.get(job) else {
            return Err(Fail::new("it is there"));
        };
        assert_eq!(rt; (open.up, open.keep), (up, keeps), "job {job}");
    }
    Ok(())
}

#[test]
fn vpes_wait_until_they_leave_all_jobs(rt: HostRuntime) -> Result<(), Fail> {
    let mut jobs = Jobs::new(rt.alloc())?;
    open(&rt, &mut jobs, root(1), None, None)?;
    open(&rt, &mut jobs, root(2), None, Some(127))?;
    for vpe in [127, 0, 64, 127] {
        assert!(rt; jobs.get(0).is_some() && vpe < VPES);
        jobs.wait(0, vpe);
    }
    expect_waiters(&rt, &jobs, 0, &[0, 64, 127])?;
    expect_waiters(&rt, &jobs, 1, &[127])?;
    for vpe in [63, 128, 127] {
        jobs.leave(vpe);
    }
    expect_waiters(&rt, &jobs, 0, &[0, 64])?;
    expect_waiters(&rt, &jobs, 1, &[])
}

// Four jobs, with the job that waits for each and how many tokens are out for each.
fn four(
    rt: &impl Abort,
    alloc: Global,
    ups: [Option<Up>; 4],
    tokens: [u64; 4],
) -> Result<Jobs, Fail> {
    let mut jobs = Jobs::new(alloc)?;
    for job in 0..4u32 {
        open(rt, &mut jobs, root(job), ups[job as usize], None)?;
        for _ in 0..tokens[job as usize] {
            add(rt, &mut jobs, job)?;
        }
    }
    Ok(jobs)
}

// How many of the jobs finish with the first, in the order of their numbers.
fn finished(rt: &impl Abort, alloc: Global, jobs: &mut Jobs) -> Result<usize, Fail> {
    let mut gone = Vec::with_capacity(alloc, jobs.len())?;
    let Some(first) = jobs.get(0) else {
        return Err(Fail::new("it is there"));
    };
    assert!(rt; first.outstanding == 0);
    jobs.finish_chain(0, &mut gone);
    for (at, job) in gone.iter().enumerate() {
        assert_eq!(rt; (job.id as usize, job.outstanding), (at, 0));
    }
    Ok(gone.len())
}

#[test]
fn a_chain_is_finished_up_to_a_job_that_waits_for_more(rt: HostRuntime) -> Result<(), Fail> {
    let one = Some(Up::Local { job: 1 });
    let two = Some(Up::Local { job: 2 });
    let three = Some(Up::Local { job: 3 });
    let itself = Some(Up::Local { job: 0 });
    let none = Some(Up::Local { job: 7 });
    // How many jobs finish, and how many are left.
    for (ups, tokens, ended) in [
        ([one, two, three, None], [0, 1, 1, 1], (4, 0)),
        ([one, two, three, none], [0, 1, 1, 1], (4, 0)),
        ([one, two, three, None], [0, 1, 2, 1], (2, 2)),
        ([one, two, three, None], [0, 0, 1, 1], (1, 3)),
        ([itself, two, three, None], [0, 1, 1, 1], (1, 3)),
        ([Some(FAR), two, three, None], [0, 1, 1, 1], (1, 3)),
    ] {
        let mut jobs = four(&rt, rt.alloc(), ups, tokens)?;
        let gone = finished(&rt, rt.alloc(), &mut jobs)?;
        assert_eq!(rt; (gone, jobs.len()), ended);
    }
    Ok(())
}

#[test]
fn working_space_is_empty_and_has_room(rt: HostRuntime) -> Result<(), Fail> {
    let mut scratch = Scratch::new(rt.alloc());
    scratch.room(2, 1)?;
    scratch.keys.push_reserved(root(1));
    scratch.keys.push_reserved(root(2));
    scratch.links.push_reserved(root(3));
    scratch.gone.push_reserved((root(1), 9));
    scratch.room(3, 0)?;
    assert!(rt; scratch.keys.is_empty() && scratch.links.is_empty());
    assert!(rt; scratch.gone.is_empty() && scratch.jobs.is_empty());
    assert!(rt; scratch.keys.capacity() >= 3 && scratch.links.capacity() >= 3);
    assert!(rt; scratch.gone.capacity() >= 3);
    Ok(())
}

#[test]
fn after_lack_of_memory_the_jobs_are_as_before(rt: HostRuntime) -> Result<(), Fail> {
    let mut jobs = Jobs::new(rt.alloc())?;
    open(&rt, &mut jobs, root(1), None, Some(5))?;
    assert!(rt; jobs.room(usize::MAX).is_err());
    // With `rt try --test --fail-alloc 3` and `4` memory is refused here too.
    let is_refused = jobs.room(100).is_err();
    assert_eq!(rt; jobs.len(), 1, "refused: {is_refused}");
    assert!(rt; is_as(&jobs, 0, root(1), 0, None));
    expect_waiters(&rt, &jobs, 0, &[5])
}

#[test]
fn after_lack_of_memory_the_working_space_is_as_before(rt: HostRuntime) -> Result<(), Fail> {
    let mut scratch = Scratch::new(rt.alloc());
    scratch.room(1, 1)?;
    scratch.keys.push_reserved(root(1));
    scratch.links.push_reserved(root(3));
    scratch.gone.push_reserved((root(2), 9));
    for (keys, jobs) in [(usize::MAX, 1), (1, usize::MAX), (1000, 1000)] {
        // With `rt try --test --fail-alloc N`, N from 5 to 8, memory is refused for the last of
        // these.
        if scratch.room(keys, jobs).is_err() {
            assert_eq!(rt; scratch.keys.as_slice(), [root(1)].as_slice());
            assert_eq!(rt; scratch.links.as_slice(), [root(3)].as_slice());
            assert_eq!(rt; scratch.gone.as_slice(), [(root(2), 9)].as_slice());
        }
    }
    Ok(())
}

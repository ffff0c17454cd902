// Runs in threads with gates that hold the threads up.
use crate::endings::accepted;
use crate::threads::{CROSSING, is_set};
use sem_node::Gate;
use sem_samples::CHAIN_OF_FORTY_ONE;
use std::hint;
use std::sync::atomic::{AtomicBool, AtomicU64, AtomicUsize, Ordering};
use std::test::Fail;

// The number of a kill.
const KILL: u8 = 7;

// The longest time that a gate holds up a step that it delays at random, in turns of a loop.
const DELAY: u64 = 4096;

// How long a gate holds up each step of a kernel that it starves.
const HUNGER: u64 = 30_000;

// A gate that holds up each step of one kernel for long, or, if it starves none, each step for
// another time.
#[derive(Drop)]
struct Delaying {
    starves: Option<u32>,
    steps: AtomicU64,
}

impl Gate for Delaying {
    fn before(&self, kernel: u32, _act: u8) {
        let step = self.steps.fetch_add(1, Ordering::SeqCst);
        let turns = match self.starves {
            None => (step.wrapping_mul(2_862_933_555_777_941_757) >> 32) % DELAY,
            Some(starved) => { if kernel == starved { HUNGER } else { 0 } }
        };
        for _ in 0..turns {
            hint::spin_loop();
        }
    }
}

// A gate of two kernels: the third step of the first waits for a kill of the second.
#[derive(Drop)]
struct Killing {
    steps: AtomicUsize,
    killed: AtomicBool,
    // How often it waited without success.
    missed: AtomicUsize,
}

impl Gate for Killing {
    fn before(&self, kernel: u32, act: u8) {
        if act == KILL {
            self.killed.store(true, Ordering::SeqCst);
        } else if kernel == 0
            && self.steps.fetch_add(1, Ordering::SeqCst) == 2
            && !is_set(&self.killed)
        {
            self.missed.fetch_add(1, Ordering::SeqCst);
        }
    }
}

#[test]
fn steps_are_held_up_at_random(rt: HostRuntime) -> Result<(), Fail> {
    let gate = Delaying {
        starves: None,
        steps: AtomicU64::new(0),
    };
    let chain = format!(in rt.alloc();
        "semper trace 2\nkernels 2\nwindow 1\n{CHAIN_OF_FORTY_ONE}"
    )?;
    for _ in 0..5u32 {
        accepted(&rt, rt.alloc(), CROSSING, &gate)?;
        accepted(&rt, rt.alloc(), chain.as_str(), &gate)?;
    }
    Ok(())
}

#[test]
fn a_kernel_that_starves_ends_all_the_same(rt: HostRuntime) -> Result<(), Fail> {
    let chain = format!(in rt.alloc();
        "semper trace 2\nkernels 2\nwindow 1\n{CHAIN_OF_FORTY_ONE}"
    )?;
    for kernel in 0..2u32 {
        let gate = Delaying {
            starves: Some(kernel),
            steps: AtomicU64::new(0),
        };
        accepted(&rt, rt.alloc(), CROSSING, &gate)?;
        accepted(&rt, rt.alloc(), chain.as_str(), &gate)?;
    }
    Ok(())
}

// A VPE derives three times, and the other is killed after a reply.
const KILL_BESIDE_DERIVES: &str = "semper trace 1
kernels 2
pe 0 0
pe 1 1
vpe 0 0
vpe 1 1
root 0 0 mem 0 4096 7
kill 1 1
call 0 derive 0 1 0 1024 1
call 0 derive 0 2 0 1024 1
call 0 derive 0 3 0 1024 1
end
";

#[test]
fn a_reply_calls_the_kernel_that_is_to_kill(rt: HostRuntime) -> Result<(), Fail> {
    let gate = Killing {
        steps: AtomicUsize::new(0),
        killed: AtomicBool::new(false),
        missed: AtomicUsize::new(0),
    };
    accepted(&rt, rt.alloc(), KILL_BESIDE_DERIVES, &gate)?;
    assert_eq!(rt; gate.missed.load(Ordering::SeqCst), 0);
    Ok(())
}

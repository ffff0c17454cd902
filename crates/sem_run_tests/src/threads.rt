//! Runs in threads, and gates of two kernels that wait for each other.

use crate::endings::{accepted, ended};
use sem_cli::Status;
use sem_msg::{Journal, act_number};
use sem_node::{Gate, OpenGate};
use std::alloc::Global;
use std::sync::atomic::{AtomicBool, AtomicU8, AtomicUsize, Ordering};
use std::test::Fail;

// Two kernels of one VPE each, which obtain from each other.
pub(crate) const CROSSING: &str = "semper trace 1
kernels 2
pe 0 0
pe 1 1
vpe 0 0
vpe 1 1
root 0 0 mem 0 4096 7
root 1 0 mem 4096 4096 7
call 0 obtain 1 1 0
call 0 obtain 2 0 0
call 1 obtain 1 0 0
end
";

// A VPE obtains what another one derived at another kernel, and uses it.
const OBTAIN_ACROSS_KERNELS: &str = "semper trace 1
kernels 2
pe 0 0
pe 1 1
vpe 0 0
vpe 1 1
root 0 0 mem 0 4096 7
call 0 derive 0 1 1024 512 1
call 1 obtain 5 0 1
call 1 bind 0 5
call 1 read 0 0 512
call 1 write 0 0 512
end
";

// Revokes go through three kernels.
const THREE_KERNELS: &str = "semper trace 1
kernels 3
pe 0 0
pe 1 1
pe 2 2
vpe 0 0
vpe 1 1
vpe 2 2
root 0 0 mem 0 4096 7
call 0 delegate 0 1 3
call 0 revoke 0
call 2 obtain 4 1 3
call 2 revoke 4
end
";

#[test]
fn a_check_accepts_what_threads_write_with_a_reply_to_each_call(
    rt: HostRuntime,
) -> Result<(), Fail> {
    for (trace, calls) in [(OBTAIN_ACROSS_KERNELS, 5), (THREE_KERNELS, 4)] {
        for _ in 0..20u32 {
            let mut replies = 0u32;
            for entry in accepted(&rt, rt.alloc(), trace, &OpenGate)?
                .journal
                .as_slice()
            {
                if entry.reply.is_some() {
                    replies = replies.saturating_add(1);
                }
            }
            assert_eq!(rt; replies, calls);
        }
    }
    Ok(())
}

// How often a gate looks for the other kernel at most.
const TURNS: u32 = 200_000_000;

// How many acts of a kernel a gate keeps.
const ACTS: usize = 4096;

// The number of a flush.
const FLUSH: u8 = 6;

// What a gate has seen of a kernel.
#[derive(Drop)]
struct Seen {
    // Whether the kernel was about to do something.
    begun: AtomicBool,
    // Whether the kernel was about to flush.
    flushed: AtomicBool,
    // How many acts the kernel was about to do, and their numbers.
    count: AtomicUsize,
    acts: Vec<AtomicU8>,
}

impl Seen {
    fn new(alloc: Global) -> Result<Self, Fail> {
        let mut acts = Vec::new(alloc);
        for _ in 0..ACTS {
            acts.push(AtomicU8::new(0))?;
        }
        Ok(Seen {
            begun: AtomicBool::new(false),
            flushed: AtomicBool::new(false),
            count: AtomicUsize::new(0),
            acts,
        })
    }

    // Whether the acts of the kernel's entries are among the kept ones, in order.
    fn leads(&self, journal: &Journal, kernel: u32) -> bool {
        let kept = self.count.load(Ordering::SeqCst);
        let mut from = 0usize;
        for entry in journal.as_slice() {
            if entry.event.kernel != kernel {
                continue;
            }
            let wanted = act_number(entry.event.act);
            let mut is_kept = false;
            for place in from..kept {
                if let Some(act) = self.acts.get(place)
                    && act.load(Ordering::SeqCst) == wanted
                {
                    from = place.saturating_add(1);
                    is_kept = true;
                    break;
                }
            }
            if !is_kept {
                return false;
            }
        }
        true
    }
}

// A gate of two kernels, which keeps their acts. The first step of each waits for the first step of
// the other. If one kernel is held up, its first step waits for a flush of the other.
#[derive(Drop)]
struct Meeting {
    held: Option<u32>,
    kernels: [Seen; 2],
    // How often a kernel waited without success.
    missed: AtomicUsize,
}

impl Gate for Meeting {
    fn before(&self, kernel: u32, act: u8) {
        let [first, second] = &self.kernels;
        let (own, other) = if kernel == 0 {
            (first, second)
        } else {
            (second, first)
        };
        let at = own.count.fetch_add(1, Ordering::SeqCst);
        if let Some(place) = own.acts.get(at) {
            place.store(act, Ordering::SeqCst);
        }
        if act == FLUSH {
            own.flushed.store(true, Ordering::SeqCst);
        }
        own.begun.store(true, Ordering::SeqCst);
        let is_met = match self.held {
            _ if at > 0 => true,
            None => is_set(&other.begun),
            Some(held) => kernel != held || is_set(&other.flushed),
        };
        if !is_met {
            self.missed.fetch_add(1, Ordering::SeqCst);
        }
    }
}

// Looks at the flag until it is set, at most that often. Returns whether it is set.
pub(crate) fn is_set(flag: &AtomicBool) -> bool {
    for _ in 0..TURNS {
        if flag.load(Ordering::SeqCst) {
            return true;
        }
    }
    false
}

#[test]
fn two_kernels_meet_at_their_gates(rt: HostRuntime) -> Result<(), Fail> {
    let gate = Meeting {
        held: None,
        kernels: [Seen::new(rt.alloc())?, Seen::new(rt.alloc())?],
        missed: AtomicUsize::new(0),
    };
    let ending = accepted(&rt, rt.alloc(), CROSSING, &gate)?;
    assert_eq!(rt; ending.journal.len(), 19);
    assert_eq!(rt; gate.missed.load(Ordering::SeqCst), 0);
    let [first, second] = &gate.kernels;
    assert!(rt; first.leads(&ending.journal, 0));
    assert!(rt; second.leads(&ending.journal, 1));
    Ok(())
}

#[test]
fn a_kernel_that_is_held_up_is_not_the_first(rt: HostRuntime) -> Result<(), Fail> {
    for held in 0..2u32 {
        let gate = Meeting {
            held: Some(held),
            kernels: [Seen::new(rt.alloc())?, Seen::new(rt.alloc())?],
            missed: AtomicUsize::new(0),
        };
        let ending = accepted(&rt, rt.alloc(), CROSSING, &gate)?;
        assert_eq!(rt; gate.missed.load(Ordering::SeqCst), 0);
        match ending.journal.as_slice().first() {
            Some(entry) => assert_eq!(rt; entry.event.kernel, 1 - held),
            None => return Err(Fail::from("no entry")),
        }
    }
    Ok(())
}

#[test]
fn a_load_is_soaked(rt: HostRuntime) -> Result<(), Fail> {
    for (line, vpes, calls) in [("soak 9 8 100", 8, 800), ("soak 9 64 312", 64, 19968)] {
        let ending = ended(&rt, rt.alloc(), line, b"not read", &OpenGate)?;
        let told = format!(in rt.alloc();
            "soak 1\nvpes {vpes}\ncalls {calls}\nanswered {calls}\nstray 0\n"
        )?;
        assert_eq!(rt; ending.status, Status::Done);
        assert_eq!(rt; ending.written.as_slice(), told.as_bytes());
    }
    Ok(())
}

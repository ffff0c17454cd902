// A thread sleeps on this until another one rings.
use std::sync::Wait;
use std::sync::atomic::{AtomicU64, Ordering};

// No one has rung since the thread last heard, and the thread does not sleep.
const AWAKE: u64 = 0;

// Another thread has rung, and the thread has not heard it yet.
const RUNG: u64 = 1;

// The thread sleeps, or is about to.
const ASLEEP: u64 = 2;

/// The bell of one thread. The thread calls `hear`, looks for work, and calls `sleep` if there is
/// none. Other threads first change what it looks at, and then ring.
#[derive(Drop)]
pub struct Bell {
    state: AtomicU64,
}

impl Bell {
    pub fn new() -> Self {
        Bell {
            state: AtomicU64::new(AWAKE),
        }
    }

    /// Wakes the thread of the bell, or makes its next sleep end at once.
    pub fn ring(&self) {
        // A bell that has rung already is heard later, and with it all changes until now.
        if self.state.load(Ordering::SeqCst) != RUNG
            && self.state.swap(RUNG, Ordering::SeqCst) == ASLEEP
        {
            self.state.wake_one();
        }
    }

    /// From now on the thread sees what was changed before the bell rang.
    pub fn hear(&self) {
        self.state.store(AWAKE, Ordering::SeqCst);
    }

    /// Sleeps until another thread has rung since the thread last heard.
    pub fn sleep<R: Wait>(&self, rt: &R) {
        let slept = self
            .state
            .compare_exchange(AWAKE, ASLEEP, Ordering::SeqCst, Ordering::SeqCst);
        if slept.is_err() {
            return;
        }
        for _ in rt.forever() {
            self.state.park(rt, ASLEEP as u32);
            if self.state.load(Ordering::SeqCst) != ASLEEP {
                return;
            }
        }
    }
}

use crate::desk::Desk;
use sem_turn::{RunName, Turn};
use std::sync::atomic::{AtomicBool, AtomicU64, Ordering};

/// What all threads of a run share.
#[derive(Drop)]
pub struct Run<N: RunName> {
    turn: Turn<N>,
    // The desks, by kernel.
    desks: Vec<Desk>,
    // Whether the threads should end, whatever is left to do.
    stopped: AtomicBool,
    // How many VPEs still make calls.
    calling: AtomicU64,
}

impl<N: RunName> Run<N> {
    /// A run with `calling` VPEs that make calls.
    pub fn new(turn: Turn<N>, desks: Vec<Desk>, calling: u64) -> Self {
        Run {
            turn,
            desks,
            stopped: AtomicBool::new(false),
            calling: AtomicU64::new(calling),
        }
    }

    pub fn turn(&self) -> &Turn<N> {
        &self.turn
    }

    /// The desk of the kernel.
    pub fn desk(&self, kernel: u32) -> Option<&Desk> {
        self.desks.get(kernel as usize)
    }

    /// Tells the threads to end, and rings for all dispatchers.
    pub fn stop(&self) {
        self.stopped.store(true, Ordering::SeqCst);
        self.ring();
    }

    pub fn is_stopped(&self) -> bool {
        self.stopped.load(Ordering::SeqCst)
    }

    pub fn is_over(&self) -> bool {
        self.is_stopped() || self.calling.load(Ordering::SeqCst) == 0
    }

    /// One VPE makes no more calls. If it is the last one, rings for all dispatchers.
    pub fn end_calls(&self) {
        if self.calling.fetch_sub(1, Ordering::SeqCst) == 1 {
            self.ring();
        }
    }

    fn ring(&self) {
        for desk in &self.desks {
            desk.bell.ring();
        }
    }

    /// That many replies were entered.
    pub fn bring_replies(&self, replies: u64) {
        for desk in &self.desks {
            desk.bring_replies(replies);
        }
    }

    /// The turn, without the desks.
    pub fn into_turn(self) -> Turn<N> {
        let Run {
            turn,
            desks: _,
            stopped: _,
            calling: _,
        } = self;
        turn
    }
}

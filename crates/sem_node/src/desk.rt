// What other threads tell the dispatcher of a kernel.
ghost use Rattle.std.specs.Prelude.{◌≡◌};

use crate::bell::Bell;
use sem_msg::with_bit;
use std::sync::atomic::{AtomicBool, AtomicU32, Ordering};

/// A kill of the setup.
#[derive(Drop)]
pub struct Due {
    pub vpe: u16,
    /// How many replies it waits for.
    pub number: u64,
    // Whether there were that many.
    due: AtomicBool,
}

impl Due {
    pub fn new(vpe: u16, number: u64) -> Self
        ensures { (result.vpe ≡ vpe) × (result.number ≡ number) }
    {
        Due {
            vpe,
            number,
            due: AtomicBool::new(number == 0),
        }
    }

    pub fn is_due(&self) -> bool {
        self.due.load(Ordering::SeqCst)
    }
}

/// The bell of a dispatcher, with what it is rung for. None of this is promised: the dispatcher
/// tests what it is told in the turn in which it acts.
#[derive(Drop)]
pub struct Desk {
    pub bell: Bell,
    // The kernels whose link to this one may hold a message, a bit for each.
    mail: AtomicU32,
    // The kernels to which the link was full when last tried, with no fetch since.
    full: AtomicU32,
    // The kills of VPEs of the kernel.
    pub kills: Vec<Due>,
}

// Sets or clears the bit of the kernel.
fn set(mask: &AtomicU32, kernel: u32, value: bool) {
    let bit = with_bit(0, kernel, true);
    if value {
        mask.fetch_or(bit, Ordering::SeqCst);
    } else {
        mask.fetch_and(!bit, Ordering::SeqCst);
    }
}

impl Desk {
    /// The desk of a kernel, with the kills of its VPEs.
    pub fn new(kills: Vec<Due>) -> Self
        ensures { result.kills ≡ kills }
    {
        Desk {
            bell: Bell::new(),
            mail: AtomicU32::new(0),
            full: AtomicU32::new(0),
            kills,
        }
    }

    /// The kernels whose link to this one may hold a message, a bit for each.
    pub fn mail(&self) -> u32 {
        self.mail.load(Ordering::SeqCst)
    }

    /// The kernels to which the link was full, a bit for each.
    pub fn full(&self) -> u32 {
        self.full.load(Ordering::SeqCst)
    }

    /// The link from that kernel is being looked at now, or still holds a message.
    pub fn note_mail(&self, from: u32, more: bool) {
        set(&self.mail, from, more);
    }

    /// The link to that kernel is being tried now, or was not full.
    pub fn note_full(&self, to: u32, full: bool) {
        set(&self.full, to, full);
    }

    /// A message was put into the link from that kernel.
    pub fn bring_mail(&self, from: u32) {
        set(&self.mail, from, true);
        self.bell.ring();
    }

    /// The link to that kernel is no longer full.
    pub fn bring_room(&self, to: u32) {
        set(&self.full, to, false);
        self.bell.ring();
    }

    /// That many replies were entered.
    pub fn bring_replies(&self, replies: u64) {
        for kill in &self.kills {
            if kill.number == replies {
                kill.due.store(true, Ordering::SeqCst);
                self.bell.ring();
            }
        }
    }
}

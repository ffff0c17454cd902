// What was entered so far, as far as it decides what can come next.
use sem_key::OutOfMemory;
use sem_msg::{Act, Entry, Setup};
use std::alloc::Global;

/// How many messages each link holds, and how many replies were made.
#[derive(Debug, Drop)]
pub struct Entered {
    kernels: u32,
    // By link, in rows of one sender each.
    held: Vec<u32>,
    /// How many replies were made.
    pub replies: u64,
}

impl Entered {
    /// Nothing entered yet, in a run of that many kernels.
    pub fn nothing(alloc: Global, kernels: u32) -> Result<Entered, OutOfMemory> {
        let mut held = Vec::new(alloc);
        for _ in 0..u64::from(kernels).saturating_mul(u64::from(kernels)) {
            held.push(0)?;
        }
        Ok(Entered {
            kernels,
            held,
            replies: 0,
        })
    }

    // The place of a link.
    fn link(&self, from: u32, to: u32) -> usize {
        (from as usize)
            .saturating_mul(self.kernels as usize)
            .saturating_add(to as usize)
    }

    // How many messages a link holds.
    fn held(&self, from: u32, to: u32) -> u32 {
        self.held.get(self.link(from, to)).copied().unwrap_or(0)
    }

    /// Whether the entry can come next: a fetch once its message is on the link, a flush while the
    /// link has room, a kill after as many replies as the trace declares; all others at any time.
    pub fn allows(&self, setup: &Setup, entry: &Entry) -> bool {
        let kernel = entry.event.kernel;
        match entry.event.act {
            Act::Fetch { from } => self.held(from, kernel) > 0,
            Act::Flush { to } => self.held(kernel, to) < setup.window,
            Act::Kill { vpe } => self.replies >= replies_before(setup, vpe),
            _ => true,
        }
    }

    /// Enters an entry.
    pub fn enter(&mut self, entry: &Entry) {
        let kernel = entry.event.kernel;
        if entry.reply.is_some() {
            self.replies = self.replies.saturating_add(1);
        }
        match entry.event.act {
            Act::Fetch { from } => {
                let link = self.link(from, kernel);
                if let Some(held) = self.held.get_mut(link) {
                    *held = held.saturating_sub(1);
                }
            }
            Act::Flush { to } => {
                let link = self.link(kernel, to);
                if let Some(held) = self.held.get_mut(link) {
                    *held = held.saturating_add(1);
                }
            }
            _ => {}
        }
    }
}

/// After how many replies the VPE is killed; 0 if no kill of it is declared. Then nothing holds the
/// entry back here, and the check of the report refuses it.
pub fn replies_before(setup: &Setup, vpe: u16) -> u64 {
    for (killed, replies) in setup.kills.as_slice() {
        if *killed == vpe {
            return *replies;
        }
    }
    0
}

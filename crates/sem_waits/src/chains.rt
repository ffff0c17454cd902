// The longest part of a journal that had to come one after another.
use sem_key::OutOfMemory;
use sem_msg::{Act, Entry};
use std::alloc::Global;
use std::collections::VecDeque;

// For each kernel, the length of the chain that ends in its last entry; for each link, that of each
// message on it.
#[derive(Debug, Drop)]
struct Chains {
    kernels: u32,
    last: Vec<usize>,
    links: Vec<VecDeque<usize>>,
}

impl Chains {
    // Before the first entry of that many kernels.
    fn new(alloc: Global, kernels: u32) -> Result<Chains, OutOfMemory> {
        let mut last = Vec::new(alloc);
        for _ in 0..kernels {
            last.push(0)?;
        }
        let mut links = Vec::new(alloc);
        for _ in 0..u64::from(kernels).saturating_mul(u64::from(kernels)) {
            links.push(VecDeque::new(alloc))?;
        }
        Ok(Chains {
            kernels,
            last,
            links,
        })
    }

    // Follows an entry, and returns the length of the chain that ends in it.
    fn follow(&mut self, entry: &Entry) -> Result<usize, OutOfMemory> {
        let kernel = entry.event.kernel;
        let before = match entry.event.act {
            Act::Fetch { from } => self.taken(from, kernel),
            _ => 0,
        };
        let length = before.max(self.last_of(kernel)).saturating_add(1);
        if let Some(last) = self.last.get_mut(kernel as usize) {
            *last = length;
        }
        if let Act::Flush { to } = entry.event.act {
            self.send(kernel, to, length)?;
        }
        Ok(length)
    }

    // The length of the chain that ends in the last entry of the kernel.
    fn last_of(&self, kernel: u32) -> usize {
        self.last.get(kernel as usize).copied().unwrap_or(0)
    }

    // The place of a link.
    fn place(&self, from: u32, to: u32) -> usize {
        (from as usize)
            .saturating_mul(self.kernels as usize)
            .saturating_add(to as usize)
    }

    // Sends a message at the end of a chain of that length.
    fn send(&mut self, from: u32, to: u32, length: usize) -> Result<(), OutOfMemory> {
        let place = self.place(from, to);
        if let Some(link) = self.links.get_mut(place) {
            link.push_back(length)?;
        }
        Ok(())
    }

    // Takes the next message, sent at the end of a chain of that length.
    fn taken(&mut self, from: u32, to: u32) -> usize {
        let place = self.place(from, to);
        match self.links.get_mut(place) {
            Some(link) => link.pop_front().unwrap_or(0),
            None => 0,
        }
    }
}

/// The length of the longest chain of entries, each of which had to wait for the one before: the
/// entries of a kernel come in turn, and a message is sent before it is taken. If each kernel has
/// its own processor, the run takes that many steps.
pub fn longest_chain(alloc: Global, kernels: u32, entries: &[Entry]) -> Result<usize, OutOfMemory> {
    let mut chains = Chains::new(alloc, kernels)?;
    let mut longest = 0usize;
    for entry in entries {
        longest = longest.max(chains.follow(entry)?);
    }
    Ok(longest)
}

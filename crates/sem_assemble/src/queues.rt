// The entries of each kernel that wait to be put in order.
use sem_key::OutOfMemory;
use sem_msg::Entry;
use std::alloc::Global;

/// Entries, named by their places among the lines: for each kernel a queue of its own ones.
#[derive(Debug, Drop)]
pub struct Queues {
    // The first entry of each kernel.
    first: Vec<Option<usize>>,
    // The entry after each entry, of the same kernel.
    next: Vec<Option<usize>>,
}

impl Queues {
    /// All entries, of that many kernels.
    pub fn of(alloc: Global, kernels: u32, entries: &[Entry]) -> Result<Queues, OutOfMemory> {
        let mut first = Vec::new(alloc);
        for _ in 0..kernels {
            first.push(None)?;
        }
        let mut next = Vec::new(alloc);
        for _ in 0..entries.len() {
            next.push(None)?;
        }
        let mut queues = Queues { first, next };
        for (place, entry) in entries.iter().enumerate().rev() {
            queues.put_before(entry.event.kernel, place);
        }
        Ok(queues)
    }

    // Puts an entry before all others of its kernel.
    fn put_before(&mut self, kernel: u32, place: usize) {
        let behind = self.first_of(kernel);
        if let Some(next) = self.next.get_mut(place) {
            *next = behind;
        }
        self.set_first(kernel, Some(place));
    }

    // Sets the first entry of the kernel.
    fn set_first(&mut self, kernel: u32, place: Option<usize>) {
        if let Some(first) = self.first.get_mut(kernel as usize) {
            *first = place;
        }
    }

    /// The first entry of the kernel, if one is left.
    pub fn first_of(&self, kernel: u32) -> Option<usize> {
        self.first.get(kernel as usize).copied().flatten()
    }

    /// The first entry of each kernel, if one is left.
    pub fn firsts(&self) -> &[Option<usize>] {
        self.first.as_slice()
    }

    /// The entry after that one, if there is one.
    pub fn behind(&self, place: usize) -> Option<usize> {
        self.next.get(place).copied().flatten()
    }

    /// Takes the first entry of the kernel out.
    pub fn take(&mut self, kernel: u32) {
        if let Some(place) = self.first_of(kernel) {
            let behind = self.behind(place);
            self.set_first(kernel, behind);
        }
    }
}

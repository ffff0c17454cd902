// Puts logs in one order.
use crate::entered::Entered;
use crate::logs::Logs;
use crate::queues::Queues;
use sem_key::OutOfMemory;
use sem_msg::{Entry, Journal, Setup};
use std::alloc::Global;

/// The entries of logs in one order, as far as there is one, and those that are left.
#[derive(Debug, Drop)]
pub struct Order {
    pub journal: Journal,
    pub left: Queues,
    pub entered: Entered,
}

/// The entries in one order, in which those of each kernel keep theirs. Of the entries that can
/// come next, the one with the first line does. If an entry is left, no order has all entries.
// No choice is ever wrong, since each link has one sender and one receiver. Only entries of its own
// kernel could take away what an entry waits for; those of other kernels put messages on the links
// to it, make room on the links from it, or add replies. So an entry that can come next still can
// after any other kernel's entry.
pub fn put_in_order(alloc: Global, logs: &Logs) -> Result<Order, OutOfMemory> {
    let (setup, entries) = (&logs.setup, logs.journal.as_slice());
    let mut order = Order {
        journal: Journal::new(alloc),
        left: Queues::of(alloc, setup.kernels, entries)?,
        entered: Entered::nothing(alloc, setup.kernels)?,
    };
    for _ in 0..entries.len() {
        match order.next_of(setup, entries) {
            Some(entry) => order.enter(entry)?,
            None => break,
        }
    }
    Ok(order)
}

impl Order {
    // The entry that comes next, if one can. It looks at the first of each kernel; there are at
    // most 32 kernels.
    fn next_of<'a>(&self, setup: &Setup, entries: &'a [Entry]) -> Option<&'a Entry> {
        let mut found: Option<(usize, &'a Entry)> = None;
        for place in self.left.firsts().iter().copied().flatten() {
            let is_first = found.map_or(true, |(other, _)| place < other);
            if let Some(entry) = entries.get(place)
                && is_first
                && self.entered.allows(setup, entry)
            {
                found = Some((place, entry));
            }
        }
        found.map(|(_, entry)| entry)
    }

    // Enters the first entry of its kernel.
    fn enter(&mut self, entry: &Entry) -> Result<(), OutOfMemory> {
        self.journal.room(1)?;
        self.journal.push(*entry);
        self.entered.enter(entry);
        self.left.take(entry.event.kernel);
        Ok(())
    }
}

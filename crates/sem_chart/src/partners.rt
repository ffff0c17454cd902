// Which flush and which fetch belong together: on each link the first and the first, the second and
// the second, and so on.
use sem_key::OutOfMemory;
use sem_msg::{Act, Entry};
use std::alloc::Global;
use std::collections::VecDeque;

/// A message that was sent before the range and arrives in it.
#[derive(Clone, Copy, Debug)]
pub struct EarlyMessage {
    pub since: usize,
    pub from: u32,
    pub to: u32,
    pub arrives: usize,
}

/// For each entry of a range, the entry at the other end of its message. Also the messages that
/// were sent before the range and arrive in it.
#[derive(Debug, Drop)]
pub struct Partners {
    from: usize,
    partners: Vec<Option<usize>>,
    pub early: Vec<EarlyMessage>,
}

impl Partners {
    /// The entry at the other end of the message of an entry, if it is in the range or before it.
    pub fn of(&self, entry: usize) -> Option<usize> {
        self.partners
            .get(entry.saturating_sub(self.from))
            .copied()
            .flatten()
    }

    // Notes that a message sent in one entry arrives in another.
    fn join(&mut self, sent: usize, arrived: usize) {
        self.note(sent, arrived);
        self.note(arrived, sent);
    }

    // Notes the other end of an entry, if the entry is in the range.
    fn note(&mut self, entry: usize, other: usize) {
        if entry >= self.from
            && let Some(place) = self.partners.get_mut(entry.saturating_sub(self.from))
        {
            *place = Some(other);
        }
    }
}

/// The partners of the entries from the entry `from` on, up to the end of the list, in a run of
/// that many kernels.
pub fn partners_of(
    alloc: Global,
    kernels: u32,
    entries: &[Entry],
    from: usize,
) -> Result<Partners, OutOfMemory> {
    let mut found = Partners {
        from,
        partners: Vec::new(alloc),
        early: Vec::new(alloc),
    };
    for _ in from..entries.len() {
        found.partners.push(None)?;
    }
    let mut links = Vec::new(alloc);
    for _ in 0..u64::from(kernels).saturating_mul(u64::from(kernels)) {
        links.push(VecDeque::new(alloc))?;
    }
    for (at, entry) in entries.iter().enumerate() {
        follow(&mut found, links.as_mut_slice(), kernels, at, entry)?;
    }
    Ok(found)
}

fn link_place(kernels: u32, from: u32, to: u32) -> usize {
    (from as usize)
        .saturating_mul(kernels as usize)
        .saturating_add(to as usize)
}

// Follows the message of an entry, if it has one.
fn follow(
    found: &mut Partners,
    links: &mut [VecDeque<usize>],
    kernels: u32,
    at: usize,
    entry: &Entry,
) -> Result<(), OutOfMemory> {
    match entry.event.act {
        Act::Flush { to } => {
            let place = link_place(kernels, entry.event.kernel, to);
            if let Some(link) = links.get_mut(place) {
                link.push_back(at)?;
            }
        }
        Act::Fetch { from } => {
            let to = entry.event.kernel;
            if let Some(link) = links.get_mut(link_place(kernels, from, to))
                && let Some(since) = link.pop_front()
            {
                found.join(since, at);
                if since < found.from && at >= found.from {
                    found.early.push(EarlyMessage {
                        since,
                        from,
                        to,
                        arrives: at,
                    })?;
                }
            }
        }
        _ => {}
    }
    Ok(())
}

// How long queues were.
use sem_key::{OutOfMemory, VPES};
use sem_msg::{Act, Call, Detail, Entry, Message};
use std::alloc::Global;

/// How many messages are on each link, and the most that ever were.
#[derive(Debug, Drop)]
pub struct LinkQueues {
    kernels: u32,
    now: Vec<usize>,
    longest: Vec<usize>,
}

impl LinkQueues {
    /// The links of that many kernels after the entries.
    pub fn of(alloc: Global, kernels: u32, entries: &[Entry]) -> Result<LinkQueues, OutOfMemory> {
        let mut queues = LinkQueues {
            kernels,
            now: Vec::new(alloc),
            longest: Vec::new(alloc),
        };
        for _ in 0..u64::from(kernels).saturating_mul(u64::from(kernels)) {
            queues.now.push(0)?;
            queues.longest.push(0)?;
        }
        for entry in entries {
            queues.follow(entry);
        }
        Ok(queues)
    }

    /// The most messages that were ever on the link from a kernel to another.
    pub fn longest(&self, from: u32, to: u32) -> usize {
        self.longest.get(self.place(from, to)).copied().unwrap_or(0)
    }

    // The place of a link.
    fn place(&self, from: u32, to: u32) -> usize {
        (from as usize)
            .saturating_mul(self.kernels as usize)
            .saturating_add(to as usize)
    }

    // Counts the message that the entry puts on a link or takes out of one.
    fn follow(&mut self, entry: &Entry) {
        match entry.event.act {
            Act::Flush { to } => {
                let place = self.place(entry.event.kernel, to);
                let mut count = 0usize;
                if let Some(now) = self.now.get_mut(place) {
                    *now = now.saturating_add(1);
                    count = *now;
                }
                if let Some(longest) = self.longest.get_mut(place) {
                    *longest = count.max(*longest);
                }
            }
            Act::Fetch { from } => {
                let place = self.place(from, entry.event.kernel);
                if let Some(now) = self.now.get_mut(place) {
                    *now = now.saturating_sub(1);
                }
            }
            _ => {}
        }
    }
}

// The beginning or the end of an ask's wait for a VPE, and its entry. For the same entry and VPE an
// end comes before a beginning.
#[derive(Clone, Copy, Debug, PartialEq, Eq, PartialOrd, Ord)]
struct Change {
    vpe: u16,
    entry: usize,
    begins: bool,
}

/// The most asks that waited at once for each VPE, by its number. An ask waits from the entry in
/// which it comes to the kernel of the VPE up to the upcall. If both VPEs have the same kernel,
/// that entry is the call. Asks without an upcall do not count.
pub fn ask_queues(alloc: Global, entries: &[Entry]) -> Result<Vec<usize>, OutOfMemory> {
    let mut changes = changes_of(alloc, entries)?;
    changes.sort()?;
    let mut longest = Vec::new(alloc);
    for _ in 0..VPES {
        longest.push(0usize)?;
    }
    let mut waiting = 0usize;
    let mut last = 0;
    for change in changes.as_slice() {
        if change.vpe != last {
            waiting = 0;
            last = change.vpe;
        }
        waiting = if change.begins {
            waiting.saturating_add(1)
        } else {
            waiting.saturating_sub(1)
        };
        if let Some(most) = longest.get_mut(usize::from(change.vpe)) {
            *most = waiting.max(*most);
        }
    }
    Ok(longest)
}

// The entries in which waits of asks begin and end.
fn changes_of(alloc: Global, entries: &[Entry]) -> Result<Vec<Change>, OutOfMemory> {
    let mut came = Vec::new(alloc);
    for _ in 0..VPES {
        came.push(0usize)?;
    }
    let mut changes = Vec::new(alloc);
    for (at, entry) in entries.iter().enumerate() {
        if let Some(asker) = comes_from(entry)
            && let Some(place) = came.get_mut(usize::from(asker))
        {
            *place = at;
        }
        if let (Act::Upcall { vpe }, Detail::Asked { asker, .. }) = (
            entry.event.act,
            entry.detail,
        ) {
            let begun = came.get(usize::from(asker)).copied().unwrap_or(at);
            changes.push(Change {
                vpe,
                entry: begun,
                begins: true,
            })?;
            changes.push(Change {
                vpe,
                entry: at,
                begins: false,
            })?;
        }
    }
    Ok(changes)
}

// The VPE whose ask comes to the kernel of the entry, if one does.
fn comes_from(entry: &Entry) -> Option<u16> {
    match (entry.event.act, entry.detail) {
        (Act::Call { vpe }, Detail::Called { call, .. }) if is_ask(&call) => Some(vpe),
        (Act::Handle, Detail::Carried { message, .. }) => match message {
            Message::ObtainReq { place, .. } => Some(place.vpe),
            Message::DelegateReq { parent, .. } => Some(parent.vpe),
            _ => None,
        },
        _ => None,
    }
}

// Whether a call asks another VPE.
fn is_ask(call: &Call) -> bool {
    matches!(
        call,
        Call::Obtain { .. }
            | Call::Delegate { .. }
            | Call::OpenSession { .. }
            | Call::AskOffer { .. }
    )
}

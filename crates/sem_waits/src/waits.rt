// The calls of a journal, and what each waited for.
use crate::walks::Walk;
use sem_key::{Key, OutOfMemory};
use sem_msg::{Call, Entry};
use std::alloc::Global;

/// A call that was made.
#[derive(Debug, Drop)]
pub struct Wait {
    pub vpe: u16,
    /// The number of the call among those of the VPE, from 0 on.
    pub index: u32,
    pub call: Call,
    /// The key at which it began a revocation, if it did.
    pub cut: Option<Key>,
    /// The number of its entry.
    pub begin: usize,
    /// The number of the entry that answers it, which may be its own; none if it got no answer.
    pub end: Option<usize>,
    /// The numbers of the entries between that it waited for.
    pub between: Vec<usize>,
}

/// The calls of the entries, in the order in which they were made.
pub fn waits_in(alloc: Global, entries: &[Entry]) -> Result<Vec<Wait>, OutOfMemory> {
    let mut walk = Walk::new(alloc)?;
    for (number, entry) in entries.iter().enumerate() {
        walk.follow(alloc, number, entry)?;
    }
    Ok(walk.into_waits())
}

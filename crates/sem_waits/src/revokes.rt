// The requests of revocations: the key that each asks for, and the key that this one was made from.
use indexmap::IndexMap;
use sem_key::{Key, OutOfMemory, pack};
use sem_msg::{Act, Detail, Entry, Message};
use std::alloc::Global;

/// The key that each key was made from, and the key that each pending request asks for.
#[derive(Debug, Drop)]
pub struct Requests {
    parents: IndexMap<u64, Key>,
    asked: IndexMap<(u32, u32, u32), Key>,
}

impl Requests {
    /// Nothing made and nothing requested yet.
    pub fn new(alloc: Global) -> Requests {
        Requests {
            parents: IndexMap::new(alloc),
            asked: IndexMap::new(alloc),
        }
    }

    /// Notes the key that the entry makes.
    pub fn note_grant(&mut self, entry: &Entry) -> Result<(), OutOfMemory> {
        if let Some((parent, child)) = entry.grant {
            let _ = self.parents.insert(pack(child), parent)?;
        }
        Ok(())
    }

    /// The key that this key was made from, if it is known.
    pub fn parent_of(&self, key: Key) -> Option<Key> {
        self.parents.get(&pack(key)).copied()
    }

    /// The key that the entry requests, or answers a request for, if any. A request is noted when
    /// it is sent.
    pub fn key_of(&mut self, entry: &Entry) -> Result<Option<Key>, OutOfMemory> {
        let kernel = entry.event.kernel;
        match (&entry.event.act, &entry.detail) {
            (Act::Flush { to }, Detail::Carried { message, .. }) => self.sent(kernel, *to, message),
            (_, Detail::Carried { peer, message }) => Ok(self.taken(*peer, kernel, message)),
            _ => Ok(None),
        }
    }

    // The key of a message from a kernel to another, when it is sent.
    fn sent(&mut self, from: u32, to: u32, message: &Message) -> Result<Option<Key>, OutOfMemory> {
        if let Message::RevokeReq { key, job } = message {
            let _ = self.asked.insert((from, to, *job), *key)?;
        }
        Ok(self.taken(from, to, message))
    }

    // The key of a message from a kernel to another.
    fn taken(&self, from: u32, to: u32, message: &Message) -> Option<Key> {
        match message {
            Message::RevokeReq { key, .. } => Some(*key),
            Message::RevokeDone { job } => self.asked.get(&(to, from, *job)).copied(),
            _ => None,
        }
    }
}

// A walk through a journal, which notes for each entry the calls that waited for it.
use crate::exchanges::exchanger;
use crate::revokes::Requests;
use crate::waits::Wait;
use sem_key::{Key, OutOfMemory, VPES, same_key};
use sem_msg::{Act, Detail, Entry};
use std::alloc::Global;

/// The calls so far, which of them are open, and what is known of keys.
#[derive(Debug, Drop)]
pub struct Walk {
    waits: Vec<Wait>,
    // The place of each VPE's open call.
    open: Vec<Option<usize>>,
    requests: Requests,
    followed: usize,
}

impl Walk {
    /// The walk before the first entry.
    pub fn new(alloc: Global) -> Result<Walk, OutOfMemory> {
        let mut open = Vec::new(alloc);
        for _ in 0..VPES {
            open.push(None)?;
        }
        Ok(Walk {
            waits: Vec::new(alloc),
            open,
            requests: Requests::new(alloc),
            followed: 0,
        })
    }

    /// The calls.
    pub fn into_waits(self) -> Vec<Wait> {
        self.waits
    }

    /// Follows the entry of that number.
    pub fn follow(
        &mut self,
        alloc: Global,
        number: usize,
        entry: &Entry,
    ) -> Result<(), OutOfMemory> {
        self.followed = number;
        self.begin(alloc, number, entry)?;
        if let Some(vpe) = exchanger(&entry.detail) {
            self.note_exchange(vpe, number)?;
        }
        if let Some(key) = self.requests.key_of(entry)? {
            self.note_revoke(key, number)?;
        }
        self.requests.note_grant(entry)?;
        self.end(number, entry);
        Ok(())
    }

    // Opens the call that the entry makes, if it makes one.
    fn begin(&mut self, alloc: Global, number: usize, entry: &Entry) -> Result<(), OutOfMemory> {
        let (Act::Call { vpe }, Detail::Called { index, call }) = (&entry.event.act, &entry.detail)
        else {
            return Ok(());
        };
        let place = self.waits.len();
        self.waits.push(Wait {
            vpe: *vpe,
            index: *index,
            call: *call,
            cut: entry.cut,
            begin: number,
            end: None,
            between: Vec::new(alloc),
        })?;
        if let Some(open) = self.open.get_mut(usize::from(*vpe)) {
            *open = Some(place);
        }
        Ok(())
    }

    // Ends the call that the entry answers, if it answers one.
    fn end(&mut self, number: usize, entry: &Entry) {
        let Some(reply) = &entry.reply else {
            return;
        };
        if let Some(wait) = self.open_of(reply.vpe) {
            wait.end = Some(number);
        }
        if let Some(open) = self.open.get_mut(usize::from(reply.vpe)) {
            *open = None;
        }
    }

    // The open call of the VPE.
    fn open_of(&mut self, vpe: u16) -> Option<&mut Wait> {
        let place = self.open.get(usize::from(vpe)).copied().flatten()?;
        self.waits.get_mut(place)
    }

    // Notes that the exchange of the VPE waited for the entry.
    fn note_exchange(&mut self, vpe: u16, number: usize) -> Result<(), OutOfMemory> {
        if let Some(wait) = self.open_of(vpe)
            && wait.cut.is_none()
        {
            wait.between.push(number)?;
        }
        Ok(())
    }

    // Notes that the revocations of the key, and of the keys that it descends from, waited for the
    // entry.
    fn note_revoke(&mut self, key: Key, number: usize) -> Result<(), OutOfMemory> {
        let mut above = Some(key);
        // No line of keys is longer than there are entries.
        for _ in 0..self.followed.saturating_add(1) {
            let Some(key) = above else {
                return Ok(());
            };
            if let Some(wait) = self.open_of(key.vpe)
                && wait.cut.is_some_and(|cut| same_key(&cut, &key))
            {
                wait.between.push(number)?;
            }
            above = self.requests.parent_of(key);
        }
        Ok(())
    }
}

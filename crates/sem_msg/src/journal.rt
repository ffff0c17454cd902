ghost use Rattle.std.specs.Prelude.{◌≡◌, ◌+◌, ◌^◌, ◌<◌, ◌≤◌, [], ◌∷◌, ◌++◌, length, slice_get};
ghost use Rattle.std.specs.Prelude.{OnOk, filter, is_some};

use crate::entry::Entry;
use crate::reserved;
use sem_key::OutOfMemory;
use std::alloc::Global;
use std::marker::Model;

/// The entries of a run, in the order in which they were made. Only `room` takes memory.
#[derive(Debug, Drop)]
pub struct Journal {
    entries: Vec<Entry>,
}

impl Model for Journal {
    ghost use Rattle.std.specs.Prelude.{◌-◌, vec_len, vec_capacity};
    ghost use Rattle.sem_msg.specs.Journal.{JournalList};

    ghost Value = { JournalList };

    ghost view = { λ j. record {
      entries = j.entries.items;
      spare = vec_capacity j.entries - vec_len j.entries;
    } };
}

impl Journal {
    /// No entries.
    pub fn new(alloc: Global) -> Self
        ensures { result.entries ≡ [] }
    {
        Journal {
            entries: Vec::new(alloc),
        }
    }

    /// The number of entries.
    pub fn len(&self) -> usize
        ensures { result ≡ length self.now.entries }
    {
        self.entries.len()
    }

    /// The entry at that place, counted from 0; none past the end.
    pub fn get(&self, at: usize) -> Option<Entry>
        ensures { result ≡ slice_get self.now.entries at }
    {
        self.entries.get(at).copied()
    }

    /// The entries, in order.
    pub fn as_slice(&self) -> &[Entry]
        ensures { result.now ≡ self.now.entries }
    {
        &self.entries
    }

    /// Makes room for `more` entries.
    pub fn room(&mut self, more: usize) -> Result<(), OutOfMemory>
        ensures room { OnOk result (more ≤ self.new.spare) }
        ensures entries { self.new.entries ≡ self.old.entries }
        ensures spare { self.old.spare ≤ self.new.spare }
    {
        self.entries.reserve(more)
    }

    /// Drops all entries but those that reply to a call.
    pub fn keep_replies(&mut self)
        ensures entries { self.new.entries ≡ filter (λ e. is_some e.reply) self.old.entries }
        ensures spare { self.old.spare ≤ self.new.spare }
    {
        self.entries.retain(|entry| entry.reply.is_some());
    }

    /// Appends the entry. There must be room for it.
    pub fn push(&mut self, entry: Entry)
        requires { 0 < self.old.spare }
        ensures entries { self.new.entries ≡ self.old.entries ++ entry ∷ [] }
        ensures spare { self.new.spare + 1 ≡ self.old.spare }
        ensures length { length self.new.entries < 2 ^ 64 }
    {
        reserved::push(&mut self.entries, &entry);
    }
}

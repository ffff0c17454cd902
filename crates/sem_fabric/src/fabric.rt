ghost use Rattle.std.specs.Prelude.{◌≡◌, ◌≢◌, ◌↔◌, ◌<◌, ◌≤◌, ◌&&◌, true, false, [], ◌∷◌, ◌++◌};
ghost use Rattle.std.specs.Prelude.{length, drop, filter, nat_lt, nat_le, slice_get};
ghost use Rattle.std.specs.Prelude.{slice_index_or};
ghost use Rattle.std.specs.Prelude.{is_some, IsOk, IfOk, IfErr, IfSome, OnOk, OnErr};
ghost use Rattle.sem_msg.specs.Message.{Fits};
ghost use Rattle.sem_msg.specs.Journal.{replies as replies_in};
ghost use Rattle.sem_msg.specs.Fabric.{link_in, relinked, entered};
ghost use Rattle.sem_fabric.specs.Fabrics.{new_fabric, placed};
ghost use Rattle.sem_msg.specs.Masks.{IsMaskOf};

use crate::marking::mark;
use crate::row::Row;
use sem_key::OutOfMemory;
use sem_msg::{Entry, Journal, Kills, Message, Setup};
use std::alloc::Global;
use std::marker::Model;

/// The links between all kernels, and the journal of the run. Only `new` and `reserve` take memory.
#[derive(Debug, Drop)]
pub struct Fabric {
    kernels: u32,
    window: u32,
    kills: Kills,
    journal: Journal,
    // The number of replies in the journal.
    replies: u64,
    // The links, by sender.
    rows: Vec<Row>,
    // Whether each kernel has a place in the journal.
    places: Vec<bool>,
    // By receiver, the kernels from which a message waits, a bit for each.
    coming: Vec<u32>,
    // By sender, the kernels to which the link is full.
    full: Vec<u32>,
}

impl Model for Fabric {
    ghost use Rattle.std.specs.Prelude.{◌≡◌, ◌≤◌, length, map, count_by, All};
    ghost use Rattle.sem_msg.specs.Journal.{replies as replies_in};
    ghost use Rattle.sem_msg.specs.Fabric.{FabricValue, IsSquare};
    ghost use Rattle.sem_fabric.specs.Marked.{AreMarked};

    ghost Value = { FabricValue };

    ghost view = { λ f. record {
      kernels = f.kernels;
      window = f.window;
      kills = f.kills;
      journal = f.journal.entries;
      links = map (λ r. r.links) f.rows.items;
      places = f.places.items;
    } };

    ghost invariant = { λ f.
        IsSquare f.kernels (map (λ r. r.links) f.rows.items)
        × All (λ r. r.window ≡ f.window) f.rows.items
        × (length f.places.items ≡ f.kernels)
        × (count_by (λ b. b) f.places.items ≤ f.journal.spare)
        × (f.replies ≡ length (replies_in f.journal.entries))
        × AreMarked f.kernels f.window (map (λ r. r.links) f.rows.items)
        f.coming.items f.full.items };
}

impl Fabric {
    /// The fabric at the start of a run: its links are empty, and no kernel has a place. The
    /// journal must be empty; if memory is refused, it is dropped.
    pub fn new(alloc: Global, setup: &Setup, journal: Journal) -> Result<Self, OutOfMemory>
        requires { journal.entries ≡ [] }
        ensures { IfOk result (λ fabric. fabric ≡ new_fabric setup.now) }
    {
        let mut rows = Vec::new(alloc);
        for _ in 0..setup.kernels {
            rows.push(Row::new(alloc, setup.kernels, setup.window)?)?;
        }
        let mut places = Vec::new(alloc);
        places.resize(setup.kernels as usize, false)?;
        let mut coming = Vec::new(alloc);
        coming.resize(setup.kernels as usize, 0)?;
        let mut full = Vec::new(alloc);
        full.resize(setup.kernels as usize, 0)?;
        Ok(Fabric {
            kernels: setup.kernels,
            window: setup.window,
            kills: setup.kills.copy(alloc)?,
            journal,
            replies: 0,
            rows,
            places,
            coming,
            full,
        })
    }

    /// Gives the kernel one place in the journal, unless it has one.
    pub fn reserve(&mut self, kernel: u32) -> Result<(), OutOfMemory>
        requires { kernel < self.old.kernels }
        ensures ok { OnOk result (self.new ≡ placed kernel self.old) }
        ensures err { OnErr result (self.new ≡ self.old) }
        ensures place { OnOk result (slice_index_or self.new.places kernel false ≡ true) }
        ensures free { slice_index_or self.old.places kernel false ≡ true → IsOk result }
    {
        if self.places[kernel as usize] {
            return Ok(());
        }
        // Makes room for all places at once, so that nobody needs to count them.
        self.journal.room(self.places.len())?;
        self.places[kernel as usize] = true;
        Ok(())
    }

    /// Appends the entry to the journal, at its kernel's place there. The place is used up.
    pub fn enter(&mut self, entry: Entry)
        requires kernel { entry.event.kernel < self.old.kernels }
        requires place { slice_index_or self.old.places entry.event.kernel false ≡ true }
        ensures { self.new ≡ entered entry self.old }
    {
        self.places[entry.event.kernel as usize] = false;
        self.journal.push(entry);
        if entry.reply.is_some() {
            self.replies += 1;
        }
    }

    /// Takes the oldest message out of a link; none if the link is empty.
    pub fn fetch(&mut self, to: u32, from: u32) -> Option<Message>
        requires kernels { (from < self.old.kernels) × (to < self.old.kernels) }
        requires other { from ≢ to }
        ensures front { result ≡ slice_get (link_in self.old.links from to) 0 }
        ensures value { self.new
            ≡ relinked from to (drop 1 (link_in self.old.links from to)) self.old }
        ensures fits { IfSome result Fits }
    {
        let row = &mut self.rows[from as usize];
        let message = row.pop(to);
        let coming = &mut self.coming[to as usize];
        let full = &mut self.full[from as usize];
        mark(row, from, to, coming, full);
        message
    }

    /// The oldest message in a link; none if the link is empty.
    pub fn peek(&self, to: u32, from: u32) -> Option<Message>
        requires kernels { (from < self.now.kernels) × (to < self.now.kernels) }
        requires other { from ≢ to }
        ensures front { result ≡ slice_get (link_in self.now.links from to) 0 }
        ensures fits { IfSome result Fits }
    {
        self.rows[from as usize].front(to)
    }

    /// Appends the message to a link. If the link already holds the window's number of messages,
    /// the message comes back and nothing changes.
    pub fn flush(&mut self, from: u32, to: u32, message: Message) -> Result<(), Message>
        requires kernels { (from < self.old.kernels) × (to < self.old.kernels) }
        requires other { from ≢ to }
        requires fits { Fits message }
        ensures variant { IsOk result
            ↔ (length (link_in self.old.links from to) < self.old.window) }
        ensures ok { OnOk result (self.new
            ≡ relinked from to (link_in self.old.links from to ++ message ∷ []) self.old) }
        ensures err { IfErr result (λ back. (back ≡ message) × (self.new ≡ self.old)) }
    {
        let row = &mut self.rows[from as usize];
        let pushed = row.push(to, message);
        let coming = &mut self.coming[to as usize];
        let full = &mut self.full[from as usize];
        mark(row, from, to, coming, full);
        pushed
    }

    /// Whether the link is full: it holds the window's number of messages, so `flush` would give
    /// one back.
    pub fn full(&self, from: u32, to: u32) -> bool
        requires kernels { (from < self.now.kernels) × (to < self.now.kernels) }
        requires other { from ≢ to }
        ensures { result ≡ nat_le self.now.window (length (link_in self.now.links from to)) }
    {
        self.rows[from as usize].is_full(to)
    }

    /// The number of messages in the link, never above the window.
    pub fn waiting(&self, from: u32, to: u32) -> usize
        requires kernels { (from < self.now.kernels) × (to < self.now.kernels) }
        requires other { from ≢ to }
        ensures count { result ≡ length (link_in self.now.links from to) }
        ensures within { result ≤ self.now.window }
    {
        self.rows[from as usize].waiting(to)
    }

    /// The kernels from which a message waits for this one, a bit for each.
    pub fn coming(&self, to: u32) -> u32
        requires { to < self.now.kernels }
        ensures { IsMaskOf (λ from. nat_lt from self.now.kernels
            && nat_lt 0 (length (link_in self.now.links from to))) result }
    {
        self.coming[to as usize]
    }

    /// The kernels to which the link from this one is full, a bit for each.
    pub fn full_to(&self, from: u32) -> u32
        requires { from < self.now.kernels }
        ensures { IsMaskOf (λ to.
            nat_le self.now.window (length (link_in self.now.links from to))) result }
    {
        self.full[from as usize]
    }

    /// The journal.
    pub fn journal(&self) -> &Journal
        ensures { result.now.entries ≡ self.now.journal }
    {
        &self.journal
    }

    /// How many entries of the journal reply to a call.
    pub fn replies(&self) -> u64
        ensures { result ≡ length (replies_in self.now.journal) }
    {
        self.replies
    }

    /// Drops all entries of the journal but those that reply to a call.
    pub fn keep_replies(&mut self)
        ensures { self.new ≡ record self.old {
          journal = filter (λ e. is_some e.reply) self.old.journal;
        } }
    {
        self.journal.keep_replies();
    }

    /// The journal alone, without the links.
    pub fn into_journal(self) -> Journal
        ensures { result.entries ≡ self.journal }
    {
        self.journal
    }
}

ghost use Rattle.std.specs.Prelude.{◌≡◌, ◌<◌, ◌≤◌, ◌+◌, [], ◌∷◌, ◌++◌, vec_len, vec_capacity};
ghost use Rattle.std.specs.Prelude.{option_copied, IfOk, OnOk, OnErr};
ghost use Rattle.sem_delegate.specs.PendingStore.{pending_of, without_pending};

use sem_key::{Key, OutOfMemory, same_key};
use sem_msg::Pending;
use std::alloc::Global;
use std::marker::Model;

/// The delegations from other kernels that one kernel has accepted and that are not acknowledged
/// yet. Only `new` and `room` take memory.
#[derive(Debug, Drop)]
pub struct Pendings {
    // In the order in which they were accepted.
    accepted: Vec<Pending>,
}

impl Model for Pendings {
    ghost use Rattle.std.specs.Prelude.{◌-◌, vec_len, vec_capacity};
    ghost use Rattle.sem_delegate.specs.PendingStore.{PendingStore};

    ghost Value = { PendingStore };

    ghost view = { λ s. record {
      pendings = s.accepted.items;
      spare = vec_capacity s.accepted - vec_len s.accepted;
    } };
}

impl Pendings {
    /// No delegation is pending.
    pub fn new(alloc: Global) -> Result<Self, OutOfMemory>
        ensures { IfOk result (λ store. store.pendings ≡ []) }
    {
        Ok(Pendings {
            accepted: Vec::new(alloc),
        })
    }

    /// Makes room for `more` pending delegations. Those that are there stay as they are. If memory
    /// is refused, all is as before.
    pub fn room(&mut self, more: usize) -> Result<(), OutOfMemory>
        ensures room { OnOk result (more ≤ self.new.spare) }
        ensures pendings { self.new.pendings ≡ self.old.pendings }
        ensures spare { self.old.spare ≤ self.new.spare }
        ensures err { OnErr result (self.new ≡ self.old) }
    {
        self.accepted.reserve(more)
    }

    /// The pending delegation of that key; none if none has it.
    pub fn get(&self, key: Key) -> Option<Pending>
        ensures { result ≡ pending_of self.now.pendings key }
    {
        found(&self.accepted, &key).copied()
    }

    /// Adds a pending delegation after the others.
    ///
    /// There must be room for it.
    pub fn add(&mut self, pending: Pending)
        requires { 0 < self.old.spare }
        ensures pendings { self.new.pendings ≡ self.old.pendings ++ pending ∷ [] }
        ensures spare { self.old.spare ≤ self.new.spare + 1 }
    {
        push(&mut self.accepted, &pending);
    }

    /// Takes out the pending delegation of that key and returns it; none if none has it.
    pub fn take(&mut self, key: Key) -> Option<Pending>
        ensures pending { result ≡ pending_of self.old.pendings key }
        ensures pendings { self.new.pendings ≡ without_pending self.old.pendings key }
        ensures spare { self.old.spare ≤ self.new.spare }
    {
        let pending = self.get(key);
        self.accepted.retain(|other| !same_key(&other.key, &key));
        pending
    }
}

fn found<'a>(pendings: &'a [Pending], key: &Key) -> Option<&'a Pending>
    ensures { option_copied result ≡ pending_of pendings.now key.now }
{
    pendings.iter().find(|pending| same_key(&pending.key, key))
}

// Appends a copy of the item. There must be room for it.
fn push<T: Copy>(items: &mut Vec<T>, item: &T)
    requires { vec_len items.old < vec_capacity items.old }
    ensures items { items.new.items ≡ items.old.items ++ item.now ∷ [] }
    ensures capacity { vec_capacity items.new ≡ vec_capacity items.old }
{
    items.push_reserved(*item);
}
